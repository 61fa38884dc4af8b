//! Marks: what is told of one element of one delivery.
ghost use Rattle.std.specs.Prelude.{◌≡◌, IfOk};
ghost use Rattle.mr_joins.specs.Value.{mark_cmp};

use crate::count::Count;
use crate::element::Element;
use mr_version::ItemId;
use std::alloc::{AllocError, Global};
use std::cmp::Ordering;

/// How often an element of a delivery was toggled.
#[derive(Debug, Drop)]
pub struct Mark {
    /// The delivery: the item that the mail came as.
    pub item: ItemId,
    pub element: Element,
    pub count: Count,
}

impl Mark {
    /// An equal mark.
    pub fn copy(&self, alloc: Global) -> Result<Mark, AllocError>
        ensures { IfOk result (λ mark. mark ≡ self.now) }
    {
        Ok(Mark {
            item: self.item,
            element: self.element.copy(alloc)?,
            count: self.count,
        })
    }

    /// The order of marks: by delivery, then by element. Their counts aren't compared.
    pub fn cmp_key(&self, other: &Mark) -> Ordering
        ensures { result ≡ mark_cmp self.now other.now }
    {
        let by_item = self.item.cmp(&other.item);
        by_item.then_with(|| self.element.cmp(&other.element))
    }
}
