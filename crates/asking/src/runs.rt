// A run of numbers that is asked.
ghost use Rattle.std.specs.Prelude.{◌↔◌, ◌<◌, ◌+◌, ◌-◌, ◌%◌, ◌^◌, IsSome};
ghost use Rattle.std.specs.Iterator.{at_most};

// From a first number to a last one; after the largest of all comes 0.
#[derive(Clone, Copy)]
pub struct Run {
    next: u64,
    left: u64,
}

impl Run {
    // A run of at most so many numbers.
    pub fn new(first: u64, last: u64, most: u64) -> Option<Self>
        ensures { IsSome result ↔ ((last + 2 ^ 64 - first) % 2 ^ 64 < most) }
    {
        let after = last.wrapping_sub(first);
        if most <= after {
            return None;
        }
        Some(Run {
            next: first,
            left: after + 1,
        })
    }
}

impl Iterator for Run {
    type Item = u64;

    ghost remaining = { λ s. at_most s.left };

    fn next(&mut self) -> Option<u64> {
        if self.left == 0 {
            return None;
        }
        self.left -= 1;
        let number = self.next;
        self.next = number.wrapping_add(1);
        Some(number)
    }
}
