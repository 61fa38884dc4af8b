//! Forms in which each knowledge has one value.
ghost use Rattle.mr_forms.specs.ByMeaning.{AreOneValue};

use crate::Knowledge;

/// Knowledge that is kept in one way alone: two that know the same are one value. So what is known decides
/// every later answer, and two replicas that know the same can be equal in all.
///
/// `PlainKnowledge` is none: it may keep a pair whose version all items know, or not.
pub trait OneValue: Knowledge {
    /// Two that know the same are one value. It changes and answers nothing; it looks at both, since that
    /// holds of the values that calls make, and not of all values of the model.
    fn one_value(first: &Self, second: &Self)
        ensures { AreOneValue Self.form first.now second.now };
}
