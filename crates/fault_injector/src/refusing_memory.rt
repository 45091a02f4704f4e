//! An allocator in which one request fails, or none. The allocator is a type parameter of every call that requests
//! memory, so commands can be run with this one.

ghost use Rattle.std.specs.Prelude.{◌≡◌};

use std::alloc::{AllocError, Allocator};
use std::sync::atomic::{AtomicU64, Ordering};

/// Passes requests for memory on to another allocator, except one if one is to fail. Requests are counted from 0, over
/// all threads that share the allocator; a collection's growth is a request.
pub(crate) struct RefusingAllocator<B: Allocator> {
    inner: B,
    requests: Requests,
}

// The number of requests, the index of the failing one if one fails, and the number of blocks that were freed.
#[derive(Drop)]
struct Requests {
    made: AtomicU64,
    refused: Option<u64>,
    returned: AtomicU64,
}

impl Requests {
    // Counts a request and returns whether it is the failing one.
    fn refuses_next(&self) -> bool {
        Some(self.made.fetch_add(1, Ordering::SeqCst)) == self.refused
    }

    // Counts a block that is freed.
    fn count_return(&self) {
        self.returned.fetch_add(1, Ordering::SeqCst);
    }
}

impl<B: Allocator> RefusingAllocator<B> {
    /// An allocator over `inner` in which the request with the index `refused` fails, or none.
    pub(crate) fn new(inner: B, refused: Option<u64>) -> RefusingAllocator<B>
        ensures inner { result.inner ≡ inner }
        ensures refused { result.requests.refused ≡ refused }
    {
        RefusingAllocator {
            inner,
            requests: Requests {
                made: AtomicU64::new(0),
                refused,
                returned: AtomicU64::new(0),
            },
        }
    }

    /// The number of requests so far.
    pub(crate) fn requests(&self) -> u64 {
        self.requests.made.load(Ordering::SeqCst)
    }

    /// The number of blocks in use, if the other allocator failed no request.
    pub(crate) fn blocks(&self) -> u64 {
        let made = self.requests();
        let refused = match self.requests.refused {
            Some(index) => u64::from(made > index),
            None => 0,
        };
        let returned = self.requests.returned.load(Ordering::SeqCst);
        made.wrapping_sub(refused).wrapping_sub(returned)
    }
}

impl<B: Allocator> Drop for RefusingAllocator<B> {
    fn drop(self) {
        let Self {
            inner: _,
            requests: _,
        } = self;
    }
}

unsafe impl<B: Allocator> Allocator for RefusingAllocator<B> {
    ghost dealloc_token = { λ heap ty ptr. B.dealloc_token heap.inner ty ptr };

    fn allocate(&self, size: usize, align: usize) -> Result<*mut u8, AllocError> {
        if self.requests.refuses_next() {
            return Err(AllocError);
        }
        self.inner.allocate(size, align)
    }

    unsafe fn deallocate(&self, ptr: *mut u8, size: usize, align: usize) {
        self.requests.count_return();
        self.inner.deallocate(ptr, size, align);
    }
}
