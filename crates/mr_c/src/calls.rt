//! The functions that are events: each is one call of the device.
ghost use Rattle.std.specs.Prelude.{◌≡◌};
ghost use Rattle.mr_c.specs.Code.{code_of};
ghost use Rattle.mr_c.specs.Called.{Called, Calls, number_told, outcome_told, version_told};

use crate::failure::{Failure, code_of};
use crate::handle::Handle;
use mr_desk::{Call, Draft, Told, VersionNumbers};
use std::alloc::Global;

// One call of the device that the handle owns.
fn called(alloc: Global, handle: &mut Handle, call: &Call<'_>) -> Result<Told, Failure>
    ensures { Called handle.old.device call.now result handle.new.device }
{
    let Some(mut device) = handle.take(alloc) else {
        return Err(Failure::Closed);
    };
    let answer = device.serve(alloc, call);
    handle.put(device);
    Ok(answer?)
}

// The version that was issued, where one was.
pub(crate) fn tell_version(answer: &Result<Told, Failure>, version: &mut VersionNumbers)
    ensures { version.new ≡ version_told answer.now version.old }
{
    if let Ok(Told::Issued(issued)) = answer {
        *version = VersionNumbers::of(*issued);
    }
}

// The number of the session or the stream that was opened, where one was.
fn tell_number(answer: &Result<Told, Failure>, number: &mut u64)
    ensures { number.new ≡ number_told answer.now number.old }
{
    match answer {
        Ok(Told::Asked(opened)) | Ok(Told::Streaming(opened)) => *number = *opened,
        _ => {}
    }
}

// A call that may issue a version.
fn call_for_version(
    alloc: Global,
    handle: &mut Handle,
    call: &Call<'_>,
    version: &mut VersionNumbers,
) -> i32
    ensures { Calls handle.old.device call.now handle.new.device (λ answer. (result ≡ code_of answer) × (version.new ≡ version_told answer version.old)) }
{
    let answer = called(alloc, handle, call);
    tell_version(&answer, version);
    code_of(&answer)
}

// A call that may open a session or a stream.
fn call_for_number(alloc: Global, handle: &mut Handle, call: &Call<'_>, number: &mut u64) -> i32
    ensures { Calls handle.old.device call.now handle.new.device (λ answer. (result ≡ code_of answer) × (number.new ≡ number_told answer number.old)) }
{
    let answer = called(alloc, handle, call);
    tell_number(&answer, number);
    code_of(&answer)
}

// What came of a record, where it was taken.
fn tell_outcome(answer: &Result<Told, Failure>, outcome: &mut u32)
    ensures { outcome.new ≡ outcome_told answer.now outcome.old }
{
    match answer {
        Ok(Told::Took) => *outcome = 0,
        Ok(Told::Known) => *outcome = 1,
        Ok(Told::Finished) => *outcome = 2,
        _ => {}
    }
}

/// Writes a message, and gives its version.
///
/// After `Closed` it answers as `Device::serve` does: first what is wrong with the message, then why the replica refuses it.
/// It costs what the event costs, and the bytes of the message.
#[unsafe(no_mangle)]
pub extern "C" fn mr_create(
    alloc: Global,
    handle: &mut Handle,
    from: &[u8],
    subject: &[u8],
    body: &[u8],
    labels: &[u8],
    flags: u8,
    day: u16,
    version: &mut VersionNumbers,
) -> i32
    ensures { Calls handle.old.device (Call.Create (record { from = from.entry; subject = subject.entry; body = body.entry; labels = labels.entry; flags = flags; day = day })) handle.new.device (λ answer. (result ≡ code_of answer) × (version.new ≡ version_told answer version.old)) }
{
    let draft = Draft {
        from,
        subject,
        body,
        labels,
        flags,
        day,
    };
    call_for_version(alloc, handle, &Call::Create(draft), version)
}

/// Puts a message in the place of held versions of one item, and gives its version.
///
/// After `Closed` it answers as `Device::serve` does: first what is wrong with the message, then with the versions, then why the
/// replica refuses the edit.
#[unsafe(no_mangle)]
pub extern "C" fn mr_edit(
    alloc: Global,
    handle: &mut Handle,
    bases: &[VersionNumbers],
    from: &[u8],
    subject: &[u8],
    body: &[u8],
    labels: &[u8],
    flags: u8,
    day: u16,
    version: &mut VersionNumbers,
) -> i32
    ensures { Calls handle.old.device (Call.Edit bases.entry (record { from = from.entry; subject = subject.entry; body = body.entry; labels = labels.entry; flags = flags; day = day })) handle.new.device (λ answer. (result ≡ code_of answer) × (version.new ≡ version_told answer version.old)) }
{
    let draft = Draft {
        from,
        subject,
        body,
        labels,
        flags,
        day,
    };
    call_for_version(alloc, handle, &Call::Edit(bases, draft), version)
}

/// Admits nothing more but what tells others. After `Closed`, why the replica refuses to retire.
#[unsafe(no_mangle)]
pub extern "C" fn mr_retire(alloc: Global, handle: &mut Handle) -> i32
    ensures { Calls handle.old.device Call.Retire handle.new.device (λ answer. result ≡ code_of answer) }
{
    code_of(&called(alloc, handle, &Call::Retire))
}

/// Asks for what the replica lacks, and gives the number of the session that waits for it. The request is the frame.
///
/// After `Closed`, why the replica refuses the pull. It costs the fragments of what is known.
#[unsafe(no_mangle)]
pub extern "C" fn mr_pull(alloc: Global, handle: &mut Handle, session: &mut u64) -> i32
    ensures { Calls handle.old.device Call.Pull handle.new.device (λ answer. (result ≡ code_of answer) × (session.new ≡ number_told answer session.old)) }
{
    call_for_number(alloc, handle, &Call::Pull, session)
}

/// Takes a record, and tells what came of it: 0 it was taken, 1 its version was known, 2 it was its stream's last.
///
/// After `Closed`, what is wrong with the frame, and then why the replica refuses the record.
#[unsafe(no_mangle)]
pub extern "C" fn mr_receive(
    alloc: Global,
    handle: &mut Handle,
    frame: &[u8],
    outcome: &mut u32,
) -> i32
    ensures { Calls handle.old.device (Call.Receive frame.entry) handle.new.device (λ answer. (result ≡ code_of answer) × (outcome.new ≡ outcome_told answer outcome.old)) }
{
    let answer = called(alloc, handle, &Call::Receive(frame));
    tell_outcome(&answer, outcome);
    code_of(&answer)
}

/// Closes a session; what it took stays. After `Closed`, why the replica refuses the cut.
#[unsafe(no_mangle)]
pub extern "C" fn mr_cut_in(alloc: Global, handle: &mut Handle, session: u64) -> i32
    ensures { Calls handle.old.device (Call.CutIn session) handle.new.device (λ answer. result ≡ code_of answer) }
{
    code_of(&called(alloc, handle, &Call::CutIn(session)))
}

/// Opens a stream for a request, and gives its number.
///
/// After `Closed`, what is wrong with the frame, and then why the replica refuses to answer.
#[unsafe(no_mangle)]
pub extern "C" fn mr_answer(
    alloc: Global,
    handle: &mut Handle,
    frame: &[u8],
    stream: &mut u64,
) -> i32
    ensures { Calls handle.old.device (Call.Answer frame.entry) handle.new.device (λ answer. (result ≡ code_of answer) × (stream.new ≡ number_told answer stream.old)) }
{
    call_for_number(alloc, handle, &Call::Answer(frame), stream)
}

/// Gives the stream's next record as the frame. After `Closed`, why the replica refuses.
#[unsafe(no_mangle)]
pub extern "C" fn mr_next(alloc: Global, handle: &mut Handle, stream: u64) -> i32
    ensures { Calls handle.old.device (Call.Next stream) handle.new.device (λ answer. result ≡ code_of answer) }
{
    code_of(&called(alloc, handle, &Call::Next(stream)))
}

/// Closes a stream. After `Closed`, why the replica refuses the cut.
#[unsafe(no_mangle)]
pub extern "C" fn mr_cut_out(alloc: Global, handle: &mut Handle, stream: u64) -> i32
    ensures { Calls handle.old.device (Call.CutOut stream) handle.new.device (λ answer. result ≡ code_of answer) }
{
    code_of(&called(alloc, handle, &Call::CutOut(stream)))
}

/// Gives a receipt for a head as the frame. After `Closed`, why the numbers are no version's, and then why the replica refuses.
#[unsafe(no_mangle)]
pub extern "C" fn mr_vouch(alloc: Global, handle: &mut Handle, version: VersionNumbers) -> i32
    ensures { Calls handle.old.device (Call.Vouch version) handle.new.device (λ answer. result ≡ code_of answer) }
{
    code_of(&called(alloc, handle, &Call::Vouch(version)))
}

/// Lets go of the push-outs that a receipt frees. After `Closed`, what is wrong with the frame, and then why the replica refuses.
#[unsafe(no_mangle)]
pub extern "C" fn mr_release(alloc: Global, handle: &mut Handle, frame: &[u8]) -> i32
    ensures { Calls handle.old.device (Call.Release frame.entry) handle.new.device (λ answer. result ≡ code_of answer) }
{
    code_of(&called(alloc, handle, &Call::Release(frame)))
}
