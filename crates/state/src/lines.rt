//! The lines of a state.

ghost use Rattle.std.specs.Prelude.{◌≡◌, ◌≤◌, ◌+◌, ◌++◌, option_map, IfSome, IsTrue, bytes_eq};
ghost use Rattle.std.specs.List.{flat_map};
ghost use Rattle.arrayvec.specs.ArrayVec.{array_vec_len};
ghost use Rattle.line_text.specs.Parts.{AreThree, is_title, lacks, word};
ghost use Rattle.ring_box.specs.Places.{ArePlaces};
ghost use Rattle.state.specs.StateText.{IsAtom, IsSide, atom_line, bits_in, columns_of, numbers_of, version_of};
ghost use Rattle.state.specs.StateViews.{atom_view, sides_view};
ghost use Rattle.state.specs.StateReading.{head_of, title_of, step_of, frac_of, count_of, sides_of, place_in, atom_of};

use crate::states::Atom;
use crate::versions::Version;
use fixed::Frac;
use itoa::Buffer;
use line_text::{
    Line, Name, integer, natural, put, put_left, put_right, put_word, strip, three_words, trim_end,
    trim_front,
};
use ring_box::{Place3, RingBox, Side};

/// The version of the text, which only the first line determines.
pub fn head(line: &[u8]) -> Option<Version>
    ensures { result ≡ head_of line.now }
{
    if line == b"pairmd state 1".as_slice() {
        Some(Version::First)
    } else if line == b"pairmd state 2".as_slice() {
        Some(Version::Second)
    } else {
        None
    }
}

/// The title: any bytes except LF, not ending in CR.
#[tactic(auto, unfolding(crate::specs::StateReading::title_of))]
pub fn title(line: &[u8]) -> Option<&[u8]>
    requires { IsTrue (lacks 10 line.now) }
    ensures exact { option_map (λ t. t.now) result ≡ title_of line.now }
    ensures title { IfSome result (λ t. IsTrue (is_title t.now)) }
{
    let title = strip(b"title ", line)?;
    if title.last() == Some(&b'\r') {
        return None;
    }
    Some(title)
}

/// The step counter of the current frame.
#[tactic(auto, unfolding(crate::specs::StateReading::step_of))]
pub fn step(line: &[u8]) -> Option<i64>
    ensures { result ≡ step_of line.now }
{
    integer(strip(b"step ", line)?)
}

/// The fraction bits, 24 or 40. A state with 32 fraction bits doesn't have this line.
#[tactic(auto, unfolding(crate::specs::StateReading::frac_of))]
pub fn frac(line: &[u8]) -> Option<Frac>
    ensures { result ≡ frac_of line.now }
{
    match natural(41, strip(b"bits ", line)?)? {
        24 => Some(Frac::F24),
        40 => Some(Frac::F40),
        _ => None,
    }
}

/// The number of atoms, at most 65,536.
#[tactic(auto, unfolding(crate::specs::StateReading::count_of))]
pub fn count(line: &[u8]) -> Option<u64>
    ensures exact { result ≡ count_of line.now }
    ensures below { IfSome result (λ n. n ≤ 65536) }
{
    natural(65_537, strip(b"atoms ", line)?)
}

/// The box, with sides from 1 to 16,000,000 in 10^-5 nm.
#[tactic(auto, unfolding(crate::specs::StateReading::sides_of))]
pub fn sides(line: &[u8]) -> Option<RingBox>
    ensures exact { option_map sides_view result ≡ sides_of line.now }
    ensures fits { IfSome result (λ ring. AreThree IsSide (sides_view ring)) }
{
    let rest = strip(b"box", line)?;
    let (x, y, z, rest) = three_words(16_000_001, rest)?;
    if rest.is_empty() && x > 0 && y > 0 && z > 0 {
        Some(RingBox {
            x: Side::new(x as u32),
            y: Side::new(y as u32),
            z: Side::new(z as u32),
        })
    } else {
        None
    }
}

/// The grid coordinates in three words, and the rest of the text.
#[tactic(auto, unfolding(crate::specs::StateReading::place_in))]
fn place(text: &[u8]) -> Option<(Place3, &[u8])>
    ensures { option_map (λ x. (x.0, x.1.now)) result ≡ place_in text.now }
{
    let (x, y, z, rest) = three_words(1 << 32, text)?;
    let place = Place3 {
        x: x as u32,
        y: y as u32,
        z: z as u32,
    };
    Some((place, rest))
}

/// The atom on its line. The atom is written again and compared with the line, so that only one line represents it.
#[tactic(auto, unfolding(crate::specs::StateReading::atom_of))]
pub fn atom(line: &[u8]) -> Option<Atom>
    ensures { option_map atom_view result ≡ atom_of line.now }
{
    if line.len() < 15 {
        return None;
    }
    let (number, rest) = line.split_at(5);
    let (residue, rest) = rest.split_at(5);
    let (name, rest) = rest.split_at(5);
    let number = integer(trim_front(number))?;
    let residue = Name::new(trim_end(residue))?;
    let name = Name::new(trim_front(name))?;
    let (previous, rest) = place(rest)?;
    let (current, _) = place(rest)?;
    if number < -9999 || number > 99999 {
        return None;
    }
    let atom = Atom {
        residue_number: number as i32,
        residue,
        name,
        previous,
        current,
    };
    if is_spelled(&atom, line) {
        Some(atom)
    } else {
        None
    }
}

/// Whether the line, without its LF, is the line of this atom.
fn is_spelled(atom: &Atom, line: &[u8]) -> bool
    ensures { result ≡ bytes_eq line.now (atom_line (atom_view atom.now)) }
{
    let mut spelled = Line::new();
    put_atom(&mut spelled, atom);
    line == spelled.as_slice()
}

/// Appends the line of the fraction bits with its LF, if there are 24 or 40.
pub fn put_bits(line: &mut Line, frac: Frac)
    requires { array_vec_len line.old + 26 ≤ 160 }
    ensures items { line.new.items ≡ line.old.items ++ bits_in (version_of frac) frac }
    ensures len { array_vec_len line.new ≤ array_vec_len line.old + 26 }
{
    match Version::of(frac) {
        Version::First => {}
        Version::Second => {
            put(line, b"bits");
            put_word(line, u64::from(frac.bits()));
            put(line, b"\n");
        }
    }
}

/// Appends an atom line, without its LF.
pub fn put_atom(line: &mut Line, atom: &Atom)
    requires { array_vec_len line.old + 141 ≤ 160 }
    ensures atom { IsAtom (atom_view atom.now) }
    ensures items { line.new.items ≡ line.old.items ++ atom_line (atom_view atom.now) }
    ensures len { array_vec_len line.new ≤ array_vec_len line.old + 141 }
{
    put_columns(line, atom);
    put_place(line, atom.previous);
    put_place(line, atom.current);
}

/// Appends residue number, residue name and atom name in their columns.
pub fn put_columns(line: &mut Line, atom: &Atom)
    requires { array_vec_len line.old + 15 ≤ 160 }
    ensures items { line.new.items ≡ line.old.items ++ columns_of (atom_view atom.now) }
    ensures len { array_vec_len line.new ≡ array_vec_len line.old + 15 }
{
    let mut buffer = Buffer::new();
    put_right(line, 5, buffer.format(atom.residue_number).as_bytes());
    put_left(line, 5, atom.residue.as_bytes());
    put_right(line, 5, atom.name.as_bytes());
}

/// Appends grid coordinates, each after a space.
fn put_place(line: &mut Line, place: Place3)
    requires { array_vec_len line.old + 63 ≤ 160 }
    ensures place { ArePlaces place }
    ensures items { line.new.items ≡ line.old.items ++ flat_map word (numbers_of place) }
    ensures len { array_vec_len line.new ≤ array_vec_len line.old + 63 }
{
    put_word(line, u64::from(place.x));
    put_word(line, u64::from(place.y));
    put_word(line, u64::from(place.z));
}

/// Appends the sides of a box, each after a space.
pub fn put_sides(line: &mut Line, ring: RingBox)
    requires { array_vec_len line.old + 63 ≤ 160 }
    ensures sides { AreThree IsSide (sides_view ring) }
    ensures items { line.new.items ≡ line.old.items ++ flat_map word (sides_view ring) }
    ensures len { array_vec_len line.new ≤ array_vec_len line.old + 63 }
{
    put_word(line, ring.x.get() as u64);
    put_word(line, ring.y.get() as u64);
    put_word(line, ring.z.get() as u64);
}
