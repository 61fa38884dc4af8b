//! What a request claims.
ghost use Rattle.std.specs.Prelude.{◌≡◌, IfOk};

use mr_session::AskedOf;
use mr_wire::Ask;
use std::alloc::{AllocError, Global};

/// What the request asks for, so that what it claims can be looked up by [`AskedOf::knows`], at two binary searches among all the
/// items that it lists. It costs a copy of the request and a sort of these items.
pub fn asked_of(alloc: Global, ask: &Ask) -> Result<AskedOf, AllocError>
    ensures { IfOk result (λ asked. asked ≡ record { target = ask.now.target; session = ask.now.session; filter = ask.now.filter; claims = ask.now.fragments }) }
{
    AskedOf::new(alloc, ask)
}
