// Numbers that contracts see as numbers in their ranges.
ghost use Rattle.std.specs.Prelude.{◌≡◌, ◌+◌, ◌<◌, ◌≤◌};
ghost use Rattle.cs_ids.specs.Ranges.{some_in, IsIn};

use std::marker::Model;

/// The number of an inode, 1 to 99,999. The root directory is inode 1.
#[derive(Clone, Copy, PartialEq, Eq, PartialOrd, Ord, Hash, Debug)]
pub struct Ino(u64);

impl Model for Ino {
    ghost use Rattle.std.specs.Prelude.{ℕ};
    ghost use Rattle.cs_ids.specs.Ranges.{IsIn};

    ghost Value = { ℕ };

    ghost view = { λ n. n.0 };

    ghost invariant = { λ n. IsIn 1 99999 n.0 };

    ghost inverse = { λ n. record { 0 = n } };
}

impl Ino {
    /// The number `value`, or None exactly where it is outside the range.
    pub fn new(value: u64) -> Option<Self>
        ensures { result ≡ some_in 1 99999 value }
    {
        if 1 <= value && value <= 99_999 {
            Some(Ino(value))
        } else {
            None
        }
    }

    /// The number itself, in its range.
    pub fn get(self) -> u64
        ensures value { result ≡ self }
        ensures range { IsIn 1 99999 result }
    {
        self.0
    }

    /// One more, or None exactly at the greatest number.
    pub fn next(self) -> Option<Self>
        ensures { result ≡ some_in 1 99999 (self + 1) }
    {
        Self::new(self.0 + 1)
    }
}

/// The number of a snapshot or of a removal, 0 to 99,999. The first snapshot is number 1.
#[derive(Clone, Copy, PartialEq, Eq, PartialOrd, Ord, Hash, Debug)]
pub struct Snap(u64);

impl Model for Snap {
    ghost use Rattle.std.specs.Prelude.{ℕ};
    ghost use Rattle.cs_ids.specs.Ranges.{IsIn};

    ghost Value = { ℕ };

    ghost view = { λ n. n.0 };

    ghost invariant = { λ n. IsIn 0 99999 n.0 };

    ghost inverse = { λ n. record { 0 = n } };
}

impl Snap {
    /// The number `value`, or None exactly where it is outside the range.
    pub fn new(value: u64) -> Option<Self>
        ensures { result ≡ some_in 0 99999 value }
    {
        if value <= 99_999 {
            Some(Snap(value))
        } else {
            None
        }
    }

    /// The number behind `count` numbers that were drawn from 1 on: `count + 1`, so 1 to 99,999.
    pub fn after(count: u64) -> Self
        requires { count < 99999 }
        ensures { result ≡ count + 1 }
    {
        Snap(count + 1)
    }

    /// The number itself, in its range.
    pub fn get(self) -> u64
        ensures value { result ≡ self }
        ensures range { IsIn 0 99999 result }
    {
        self.0
    }

    /// One more, or None exactly at the greatest number.
    pub fn next(self) -> Option<Self>
        ensures { result ≡ some_in 0 99999 (self + 1) }
    {
        Self::new(self.0 + 1)
    }
}

/// The number of a snapshot context or of a capability message, 0 to 99,999.
#[derive(Clone, Copy, PartialEq, Eq, PartialOrd, Ord, Hash, Debug)]
pub struct Seq(u64);

impl Model for Seq {
    ghost use Rattle.std.specs.Prelude.{ℕ};
    ghost use Rattle.cs_ids.specs.Ranges.{IsIn};

    ghost Value = { ℕ };

    ghost view = { λ n. n.0 };

    ghost invariant = { λ n. IsIn 0 99999 n.0 };

    ghost inverse = { λ n. record { 0 = n } };
}

impl Seq {
    /// The number `value`, or None exactly where it is outside the range.
    pub fn new(value: u64) -> Option<Self>
        ensures { result ≡ some_in 0 99999 value }
    {
        if value <= 99_999 {
            Some(Seq(value))
        } else {
            None
        }
    }

    /// The number behind `count` numbers that were drawn from 1 on: `count + 1`, so 1 to 99,999.
    pub fn after(count: u64) -> Self
        requires { count < 99999 }
        ensures { result ≡ count + 1 }
    {
        Seq(count + 1)
    }

    /// The number 0.
    pub fn zero() -> Self
        ensures { result ≡ 0 }
    {
        Seq(0)
    }

    /// The number itself, in its range.
    pub fn get(self) -> u64
        ensures value { result ≡ self }
        ensures range { IsIn 0 99999 result }
    {
        self.0
    }

    /// One more, or None exactly at the greatest number.
    pub fn next(self) -> Option<Self>
        ensures { result ≡ some_in 0 99999 (self + 1) }
    {
        Self::new(self.0 + 1)
    }
}

/// The number of an operation, a flush or a request, 1 to 99,999; each kind is counted from 1.
#[derive(Clone, Copy, PartialEq, Eq, PartialOrd, Ord, Hash, Debug)]
pub struct Tid(u64);

impl Model for Tid {
    ghost use Rattle.std.specs.Prelude.{ℕ};
    ghost use Rattle.cs_ids.specs.Ranges.{IsIn};

    ghost Value = { ℕ };

    ghost view = { λ n. n.0 };

    ghost invariant = { λ n. IsIn 1 99999 n.0 };

    ghost inverse = { λ n. record { 0 = n } };
}

impl Tid {
    /// The number `value`, or None exactly where it is outside the range.
    pub fn new(value: u64) -> Option<Self>
        ensures { result ≡ some_in 1 99999 value }
    {
        if 1 <= value && value <= 99_999 {
            Some(Tid(value))
        } else {
            None
        }
    }

    /// The number behind `count` numbers that were drawn from 1 on: `count + 1`, so 1 to 99,999.
    pub fn after(count: u64) -> Self
        requires { count < 99999 }
        ensures { result ≡ count + 1 }
    {
        Tid(count + 1)
    }

    /// The number itself, in its range.
    pub fn get(self) -> u64
        ensures value { result ≡ self }
        ensures range { IsIn 1 99999 result }
    {
        self.0
    }

    /// One more, or None exactly at the greatest number.
    pub fn next(self) -> Option<Self>
        ensures { result ≡ some_in 1 99999 (self + 1) }
    {
        Self::new(self.0 + 1)
    }
}

/// The number of a reference of one caller, 0 to 99,999; a caller's first reference is number 1.
#[derive(Clone, Copy, PartialEq, Eq, PartialOrd, Ord, Hash, Debug)]
pub struct RefNo(u64);

impl Model for RefNo {
    ghost use Rattle.std.specs.Prelude.{ℕ};
    ghost use Rattle.cs_ids.specs.Ranges.{IsIn};

    ghost Value = { ℕ };

    ghost view = { λ n. n.0 };

    ghost invariant = { λ n. IsIn 0 99999 n.0 };

    ghost inverse = { λ n. record { 0 = n } };
}

impl RefNo {
    /// The number `value`, or None exactly where it is outside the range.
    pub fn new(value: u64) -> Option<Self>
        ensures { result ≡ some_in 0 99999 value }
    {
        if value <= 99_999 {
            Some(RefNo(value))
        } else {
            None
        }
    }

    /// The number behind `count` numbers that were drawn from 1 on: `count + 1`, so 1 to 99,999.
    pub fn after(count: u64) -> Self
        requires { count < 99999 }
        ensures { result ≡ count + 1 }
    {
        RefNo(count + 1)
    }

    /// The number 0.
    pub fn zero() -> Self
        ensures { result ≡ 0 }
    {
        RefNo(0)
    }

    /// The number itself, in its range.
    pub fn get(self) -> u64
        ensures value { result ≡ self }
        ensures range { IsIn 0 99999 result }
    {
        self.0
    }

    /// One more, or None exactly at the greatest number.
    pub fn next(self) -> Option<Self>
        ensures { result ≡ some_in 0 99999 (self + 1) }
    {
        Self::new(self.0 + 1)
    }
}

/// The number of a caller, 0 to 32. Caller 0 is the keeper of the gate.
#[derive(Clone, Copy, PartialEq, Eq, PartialOrd, Ord, Hash, Debug)]
pub struct Caller(u64);

impl Model for Caller {
    ghost use Rattle.std.specs.Prelude.{ℕ};
    ghost use Rattle.cs_ids.specs.Ranges.{IsIn};

    ghost Value = { ℕ };

    ghost view = { λ n. n.0 };

    ghost invariant = { λ n. IsIn 0 32 n.0 };

    ghost inverse = { λ n. record { 0 = n } };
}

impl Caller {
    /// The number `value`, or None exactly where it is outside the range.
    pub fn new(value: u64) -> Option<Self>
        ensures { result ≡ some_in 0 32 value }
    {
        if value <= 32 {
            Some(Caller(value))
        } else {
            None
        }
    }

    /// The number itself, in its range.
    pub fn get(self) -> u64
        ensures value { result ≡ self }
        ensures range { IsIn 0 32 result }
    {
        self.0
    }

    /// One more, or None exactly at the greatest number.
    pub fn next(self) -> Option<Self>
        ensures { result ≡ some_in 0 32 (self + 1) }
    {
        Self::new(self.0 + 1)
    }
}
