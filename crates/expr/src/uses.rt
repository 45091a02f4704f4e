// Name resolution: replaces names by the inputs and definitions that they refer to.
ghost use Rattle.std.specs.Prelude.{◌≡◌, ◌≤◌, IfOk, IsTrue, length, map};
ghost use Rattle.fallible.specs.Failures.{IsOrMemory};
ghost use Rattle.energy_program.specs.Faults.{Gives};
ghost use Rattle.energy_program.specs.Tree as t;
ghost use Rattle.expr.specs.Syntax as s;
ghost use Rattle.energy_program.specs.Tree.{are_scoped, variable_count, tree_of};
ghost use Rattle.energy_program.specs.Variables.{names_of};
ghost use Rattle.energy_program.specs.Programs.{trees_of};
ghost use Rattle.expr.specs.Syntax.{definition_of, source_of, syntax_of};
ghost use Rattle.expr.specs.Uses.{IsInScope, all_resolved, resolved_in, trees, used_in};

use crate::definitions::{Scope, number_from};
use crate::parts::{Part, apply, choose, leaf, negate, operate, put, raise};
use crate::sources::{Definition, Source};
use crate::syntax::Syntax;
use energy_program::{EnergyName, Expr, ExprFault, Names, Program};
use fallible::{Failure, pair};
use fixed::{Constant, Operator};
use std::alloc::Allocator;

// The input or definition that a name refers to; `UnknownName` if there is neither.
#[inline(never)]
fn used<A: Allocator + Copy>(alloc: A, scope: &Scope<A>, name: &[u8]) -> Part<A>
    ensures value { Gives (λ part. tree_of part.value) result (used_in scope.now name.now) }
    ensures scoped { IfOk result (λ e. IsInScope scope.now (tree_of e.value)) }
{
    match scope.names.input_of(name) {
        Some(input) => leaf(alloc, Expr::Input(input)),
        None => match number_from(scope.first, scope.later, name) {
            Some(number) => leaf(alloc, Expr::Definition(number)),
            None => {
                let name = EnergyName::copied(alloc, name)?;
                Err(Failure::Refused(ExprFault::UnknownName { name }))
            }
        },
    }
}

// Overwrites `part` with a number.
#[inline(never)]
fn resolve_number<A: Allocator + Copy>(alloc: A, constant: Constant, part: &mut Part<A>)
    ensures { IsOrMemory (λ e. tree_of e.value ≡ t.Number constant) part.new }
{
    let number = Expr::Number(constant.value, constant.low, constant.high);
    put(part, leaf(alloc, number));
}

// Overwrites `part` with the input or definition that a name refers to, or with `UnknownName`.
#[inline(never)]
fn resolve_name<A: Allocator + Copy>(alloc: A, scope: &Scope<A>, name: &[u8], part: &mut Part<A>)
    ensures value { Gives (λ part. tree_of part.value) part.new (used_in scope.now name.now) }
    ensures scoped { IfOk part.new (λ e. IsInScope scope.now (tree_of e.value)) }
{
    put(part, used(alloc, scope, name));
}

// Overwrites `part` with the tree in which every name is resolved in the scope, or with `UnknownName` for the leftmost
// name without a meaning. Each term of a sum needs a stack frame, so the frame is kept small: the result is passed by
// reference, and called functions aren't inlined.
#[cycle(resolve)]
#[tactic(auto, unfolding(crate::specs::Uses::resolved))]
fn resolve_into<A: Allocator + Copy>(
    alloc: A,
    scope: &Scope<A>,
    syntax: &Syntax<A>,
    part: &mut Part<A>,
)
    ensures value { Gives (λ part. tree_of part.value) part.new (resolved_in scope.now (syntax_of syntax.now)) }
    ensures scoped { IfOk part.new (λ e. IsInScope scope.now (tree_of e.value)) }
{
    match syntax {
        Syntax::Number(constant) => resolve_number(alloc, *constant, part),
        Syntax::Name(name) => resolve_name(alloc, scope, name, part),
        Syntax::Negated(inner) => {
            resolve_into(alloc, scope, inner, part);
            negate(alloc, part);
        }
        Syntax::Binary(operator, left, right) => {
            resolve_into(alloc, scope, left, part);
            resolve_operation(alloc, scope, *operator, right, part);
        }
        Syntax::Applied(function, inner) => {
            resolve_into(alloc, scope, inner, part);
            apply(alloc, *function, part);
        }
        Syntax::Power(base, exponent) => {
            resolve_into(alloc, scope, base, part);
            raise(alloc, part, *exponent);
        }
        Syntax::Select(condition, chosen, otherwise) => {
            resolve_into(alloc, scope, condition, part);
            resolve_choice(alloc, scope, chosen, otherwise, part);
        }
    }
}

// Overwrites the resolved left part with the resolved operation.
#[cycle(resolve)]
#[inline(never)]
#[tactic(auto, unfolding(crate::specs::Uses::resolved))]
fn resolve_operation<A: Allocator + Copy>(
    alloc: A,
    scope: &Scope<A>,
    operator: Operator,
    right: &Syntax<A>,
    part: &mut Part<A>,
)
    ensures value { (left : s.Syntax) → Gives (λ part. tree_of part.value) part.old (resolved_in scope.now left)
        → Gives (λ part. tree_of part.value) part.new (resolved_in scope.now (s.Binary operator left (syntax_of right.now))) }
    ensures scoped { IfOk part.old (λ e. IsInScope scope.now (tree_of e.value))
        → IfOk part.new (λ e. IsInScope scope.now (tree_of e.value)) }
{
    let mut resolved_right = Err(Failure::Memory);
    resolve_into(alloc, scope, right, &mut resolved_right);
    operate(alloc, operator, part, resolved_right);
}

// Overwrites the resolved condition with the resolved choice.
#[cycle(resolve)]
#[inline(never)]
#[tactic(auto, unfolding(crate::specs::Uses::resolved))]
fn resolve_choice<A: Allocator + Copy>(
    alloc: A,
    scope: &Scope<A>,
    chosen: &Syntax<A>,
    otherwise: &Syntax<A>,
    part: &mut Part<A>,
)
    ensures value { (condition : s.Syntax) → Gives (λ part. tree_of part.value) part.old (resolved_in scope.now condition)
        → Gives (λ part. tree_of part.value) part.new
        (resolved_in scope.now (s.Select condition (syntax_of chosen.now) (syntax_of otherwise.now))) }
    ensures scoped { IfOk part.old (λ e. IsInScope scope.now (tree_of e.value))
        → IfOk part.new (λ e. IsInScope scope.now (tree_of e.value)) }
{
    let mut resolved_chosen = Err(Failure::Memory);
    resolve_into(alloc, scope, chosen, &mut resolved_chosen);
    let mut resolved_otherwise = Err(Failure::Memory);
    resolve_into(alloc, scope, otherwise, &mut resolved_otherwise);
    choose(alloc, part, resolved_chosen, resolved_otherwise);
}

/// The tree with every name resolved in the scope. Error: `UnknownName` for the leftmost name without a meaning.
pub fn resolve<A: Allocator + Copy>(alloc: A, scope: &Scope<A>, syntax: &Syntax<A>) -> Part<A>
    ensures value { Gives (λ part. tree_of part.value) result (resolved_in scope.now (syntax_of syntax.now)) }
    ensures scoped { IfOk result (λ e. IsInScope scope.now (tree_of e.value)) }
{
    let mut part = Err(Failure::Memory);
    resolve_into(alloc, scope, syntax, &mut part);
    part
}

// The resolved trees of definitions, each of which sees the later ones.
fn resolve_all<A: Allocator + Copy>(
    alloc: A,
    names: &Names<A>,
    definitions: &[Definition<A>],
) -> Result<Vec<Expr<A>, A>, Failure<ExprFault<A>>>
    requires { length definitions.now ≤ 64 }
    ensures value { Gives (λ trees. map tree_of trees.items) result
        (all_resolved (names_of names.now) 0 (map definition_of definitions.now)) }
    ensures scoped { IfOk result (λ trees. IsTrue
        (are_scoped (variable_count names.now.parameters names.now.globals) 0 (map tree_of trees.items))) }
    ensures count { IfOk result (λ trees. length trees.items ≡ length definitions.now) }
{
    let mut trees = Vec::new(alloc);
    for number in 0..definitions.len() {
        let scope = Scope {
            names,
            first: number as u32 + 1,
            later: &definitions[number + 1..],
        };
        let tree = resolve(alloc, &scope, &definitions[number].value)?;
        trees.push(Box::into_inner(tree))?;
    }
    Ok(trees)
}

/// The program of a parsed text, whose definitions' names were checked. Error: `UnknownName` for the first name without
/// a meaning, the body first.
#[tactic(auto, unfolding(crate::specs::Uses::trees))]
pub fn program<A: Allocator + Copy>(
    alloc: A,
    names: &Names<A>,
    source: &Source<A>,
) -> Result<Program<A>, Failure<ExprFault<A>>>
    requires { length source.now.definitions.items ≤ 64 }
    ensures value { Gives trees_of result (trees (names_of names.now) (source_of source.now)) }
    ensures parameters { IfOk result (λ p. p.parameters ≡ names.now.parameters) }
    ensures globals { IfOk result (λ p. p.globals ≡ names.now.globals) }
{
    let scope = Scope {
        names,
        first: 0,
        later: &source.definitions,
    };
    let body = resolve(alloc, &scope, &source.body);
    let definitions = resolve_all(alloc, names, &source.definitions);
    let (body, definitions) = pair(body, definitions)?;
    Ok(Program {
        body: Box::into_inner(body),
        definitions,
        parameters: names.parameters,
        globals: names.globals,
    })
}
