//! How often an element was toggled.
ghost use Rattle.std.specs.Prelude.{◌≡◌, ◌<◌, ◌^◌, ◌-◌};
ghost use Rattle.mr_joins.specs.Count.{larger, even_count, next_odd_count, is_set, is_covered};

/// How often an element of a delivery was toggled, and how often it had been as the mail was deleted last.
#[derive(Clone, Copy, Debug, PartialEq, Eq, Drop)]
pub struct Count {
    /// How often users toggled it: odd is set.
    pub raised: u32,
    /// What `raised` was, as far as the one knew who deleted the mail last; 0 where nobody did.
    pub gone: u32,
}

impl Count {
    /// The greater `raised` and the greater `gone`.
    pub fn larger(self, other: Count) -> Count
        ensures { result ≡ larger self other }
    {
        Count {
            raised: self.raised.max(other.raised),
            gone: self.gone.max(other.gone),
        }
    }

    /// Whether the element is set.
    pub fn is_set(self) -> bool
        ensures { result ≡ is_set self }
    {
        self.raised % 2 == 1
    }

    /// Whether a deletion knew all of it.
    pub fn is_covered(self) -> bool
        ensures { result ≡ is_covered self }
    {
        self.raised <= self.gone
    }

    /// Raised by one, if it is set.
    pub(crate) fn to_even(self) -> Count
        requires { self.raised < 2 ^ 32 - 1 }
        ensures { result ≡ even_count self }
    {
        Count {
            raised: self.raised + self.raised % 2,
            gone: self.gone,
        }
    }

    /// Raised to the next odd number: by one, or by two if it is set.
    pub(crate) fn to_next_odd(self) -> Count
        requires { self.raised < 2 ^ 32 - 2 }
        ensures { result ≡ next_odd_count self }
    {
        Count {
            raised: self.raised + 1 + self.raised % 2,
            gone: self.gone,
        }
    }
}
