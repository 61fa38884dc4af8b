//! How a device is given back.
use crate::device::Device;
use crate::fault::Fault;
use crate::teller::{tell_refusal, tell_retired};
use crate::wire::Wire;
use mr_version::Version;
use std::alloc::Global;

/// The office, which is up to date, takes over what the phone has: it gives its word for the message that the phone
/// keeps for it, and the phone lets go of that one.
///
/// `OnlyCopy` where the phone has a message that the office doesn't know. A replica would retire all the same: only
/// what it keeps for others holds it back, and not what its own filter selects.
pub fn hand_over(
    alloc: Global,
    office: &mut Device,
    phone: &mut Device,
    kept: Version,
) -> Result<(), Fault> {
    if office.lacks_any_of(phone) {
        return Err(Fault::OnlyCopy);
    }
    let mut receipts = Wire::new(alloc);
    let done = hand_over_by(&mut receipts, office, phone, kept);
    drop(receipts);
    done
}

/// The receipt goes over this connection.
fn hand_over_by(
    receipts: &mut Wire,
    office: &mut Device,
    phone: &mut Device,
    kept: Version,
) -> Result<(), Fault> {
    office.vouch(kept, receipts)?;
    phone.release(receipts)
}

/// Lets the phone retire, and tells it, or why it can't.
pub fn tell_whether_it_retires<R: Print>(rt: &R, phone: &mut Device) -> Result<(), Fault> {
    match phone.retire() {
        Ok(()) => tell_retired(rt),
        Err(fault) => tell_refusal(rt, fault),
    }
}
