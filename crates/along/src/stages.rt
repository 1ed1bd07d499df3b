// What works along a row, value by value, and carries something from each place to the next.
ghost use Rattle.std.specs.Prelude.{◌≡◌, ◌+◌, ◌%◌, ◌^◌};

// Numbers of so many bits, which wrap.
pub(crate) trait Wrapping: Copy {
    ghost sum: { Self → Self → Self };

    fn plus(self, other: Self) -> Self
        ensures { result ≡ sum self other };
}

impl Wrapping for u16 {
    ghost sum = { λ a b. (a + b) % 2 ^ 16 };

    fn plus(self, other: u16) -> u16 {
        self.wrapping_add(other)
    }
}

impl Wrapping for u64 {
    ghost sum = { λ a b. (a + b) % 2 ^ 64 };

    fn plus(self, other: u64) -> u64 {
        self.wrapping_add(other)
    }
}

pub(crate) trait Stage: Copy {
    type Value: Copy;

    // What it makes of a value, and what it is after that.
    ghost made: { Self → Self.Value → Self.Value };

    ghost after: { Self → Self.Value → Self };

    fn next(&mut self, x: Self::Value) -> Self::Value
        ensures value { result ≡ made self.old x }
        ensures state { self.new ≡ after self.old x };
}

// A box of width 2: to each value the one before it.
#[derive(Clone, Copy)]
pub(crate) struct Pair<T> {
    pub(crate) before: T,
}

impl<T: Wrapping> Stage for Pair<T> {
    type Value = T;

    ghost made = { λ s x. T.sum x s.before };

    ghost after = { λ s x. record { before = x } };

    fn next(&mut self, x: T) -> T {
        let y = x.plus(self.before);
        self.before = x;
        y
    }
}

// A running total, modulo 2^64.
#[derive(Clone, Copy)]
pub(crate) struct Total {
    pub(crate) total: u64,
}

impl Stage for Total {
    type Value = u64;

    ghost made = { λ s x. (s.total + x) % 2 ^ 64 };

    ghost after = { λ s x. record { total = (s.total + x) % 2 ^ 64 } };

    fn next(&mut self, x: u64) -> u64 {
        self.total = self.total.wrapping_add(x);
        self.total
    }
}

// Two stages at once: the second works on what the first makes.
#[derive(Clone, Copy)]
pub(crate) struct Then<A, B> {
    pub(crate) first: A,
    pub(crate) second: B,
}

impl<A: Stage, B: Stage<Value = A::Value>> Stage for Then<A, B> {
    type Value = A::Value;

    ghost made = { λ s x. B.made s.second (A.made s.first x) };

    ghost after = { λ s x. record { first = A.after s.first x; second = B.after s.second (A.made s.first x) } };

    fn next(&mut self, x: A::Value) -> A::Value {
        let y = self.first.next(x);
        self.second.next(y)
    }
}
