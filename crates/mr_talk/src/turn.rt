//! Who sends what, and when.
ghost use Rattle.std.specs.Prelude.{◌≡◌};
ghost use Rattle.mr_talk.specs.Turns.{next_of, number_of, sender_of};
ghost use Rattle.mr_talk.specs.declared.turn.Turn.TheVariants.{CallerGreets, CalledGreets, CalledAsks, CalledPasses, CallerAsks, CallerTells, CallerTellsFile, CalledTells, CalledTellsFile, CallerSettles, CallerSettlesFile, CallerWants, CalledSettles, CalledSettlesFile, CalledCloses, CallerCloses};

use crate::kind::Kind;

/// Which of the two a side is.
#[derive(Clone, Copy, Debug, PartialEq, Eq)]
pub enum Role {
    /// The side that calls, and speaks first.
    Caller,
    /// The side that is called.
    Called,
}

/// How far a talk has come. Both sides go through the same states, each as it sends or receives a message.
///
/// A talk takes two turns where there is nothing to tell, and else five to seven:
///
/// 1. The caller: hello.
/// 2. The called: hello, and what it asks for; or that there is nothing to tell.
/// 3. The caller: files and records, its push-outs; before them, what it asks for.
/// 4. The called: files and records, its push-outs; receipts; which files it still lacks.
/// 5. The caller: the files that are lacking, receipts, which files it still lacks.
/// 6. The called: the files that are lacking, receipts.
/// 7. The caller: receipts.
///
/// A turn from the fourth on ends with `Done` where its side has nothing open. The talk is over when each side has said so,
/// and the sixth and the seventh have to say it. A fault may be told in the place of any message, and ends the talk.
#[derive(Clone, Copy, Debug, PartialEq, Eq)]
pub enum Turn {
    /// 1, the caller: its hello.
    CallerGreets,
    /// 2, the called: its hello.
    CalledGreets,
    /// 2, the called: its request.
    CalledAsks,
    /// 2, the called: the end of its turn.
    CalledPasses,
    /// 3, the caller: its request.
    CallerAsks,
    /// 3, the caller: files, records, push-outs.
    CallerTells,
    /// 3, the caller, within a file.
    CallerTellsFile,
    /// 4, the called: files, records, push-outs, receipts, wants.
    CalledTells,
    /// 4, the called, within a file.
    CalledTellsFile,
    /// 5, the caller, where the called has something open: files, receipts, wants.
    CallerSettles,
    /// 5, the caller, within a file.
    CallerSettlesFile,
    /// 5, the caller, where the called has nothing open: receipts, wants.
    CallerWants,
    /// 6, the called, where the caller has something open: files, receipts.
    CalledSettles,
    /// 6, the called, within a file.
    CalledSettlesFile,
    /// 6, the called, where the caller has nothing open: receipts.
    CalledCloses,
    /// 7, the caller: receipts.
    CallerCloses,
    /// Each side has said that it has nothing open, or there was nothing to tell.
    Over,
    /// A fault was told.
    Failed,
}

impl Turn {
    /// Who may send now: nobody once the talk is over or has failed.
    pub fn sender(self) -> Option<Role>
        ensures { result ≡ sender_of self }
    {
        match self {
            Turn::CallerGreets
            | Turn::CallerAsks
            | Turn::CallerTells
            | Turn::CallerTellsFile
            | Turn::CallerSettles
            | Turn::CallerSettlesFile
            | Turn::CallerWants
            | Turn::CallerCloses => Some(Role::Caller),
            Turn::CalledGreets
            | Turn::CalledAsks
            | Turn::CalledPasses
            | Turn::CalledTells
            | Turn::CalledTellsFile
            | Turn::CalledSettles
            | Turn::CalledSettlesFile
            | Turn::CalledCloses => Some(Role::Called),
            Turn::Over | Turn::Failed => None,
        }
    }

    /// The turn's number, 1 to 7; 0 once nobody may send.
    pub fn number(self) -> u8
        ensures { result ≡ number_of self }
    {
        match self {
            Turn::CallerGreets => 1,
            Turn::CalledGreets | Turn::CalledAsks | Turn::CalledPasses => 2,
            Turn::CallerAsks | Turn::CallerTells | Turn::CallerTellsFile => 3,
            Turn::CalledTells | Turn::CalledTellsFile => 4,
            Turn::CallerSettles | Turn::CallerSettlesFile | Turn::CallerWants => 5,
            Turn::CalledSettles | Turn::CalledSettlesFile | Turn::CalledCloses => 6,
            Turn::CallerCloses => 7,
            Turn::Over | Turn::Failed => 0,
        }
    }

    /// How far the talk has come behind a message of this kind, or `None` where it is out of place.
    pub fn next(self, kind: Kind) -> Option<Turn>
        ensures { result ≡ next_of self kind }
    {
        match self {
            Turn::CallerGreets => caller_greets(kind),
            Turn::CalledGreets => called_greets(kind),
            Turn::CalledAsks => called_asks(kind),
            Turn::CalledPasses => called_passes(kind),
            Turn::CallerAsks => caller_asks(kind),
            Turn::CallerTells => caller_tells(kind),
            Turn::CallerTellsFile => caller_tells_file(kind),
            Turn::CalledTells => called_tells(kind),
            Turn::CalledTellsFile => called_tells_file(kind),
            Turn::CallerSettles => caller_settles(kind),
            Turn::CallerSettlesFile => caller_settles_file(kind),
            Turn::CallerWants => caller_wants(kind),
            Turn::CalledSettles => called_settles(kind),
            Turn::CalledSettlesFile => called_settles_file(kind),
            Turn::CalledCloses => called_closes(kind),
            Turn::CallerCloses => caller_closes(kind),
            Turn::Over | Turn::Failed => None,
        }
    }
}

fn caller_greets(kind: Kind) -> Option<Turn>
    ensures { result ≡ next_of CallerGreets kind }
{
    match kind {
        Kind::Hello => Some(Turn::CalledGreets),
        Kind::Fault => Some(Turn::Failed),
        _ => None,
    }
}

fn called_greets(kind: Kind) -> Option<Turn>
    ensures { result ≡ next_of CalledGreets kind }
{
    match kind {
        Kind::Hello => Some(Turn::CalledAsks),
        Kind::Idle => Some(Turn::Over),
        Kind::Fault => Some(Turn::Failed),
        _ => None,
    }
}

fn called_asks(kind: Kind) -> Option<Turn>
    ensures { result ≡ next_of CalledAsks kind }
{
    match kind {
        Kind::Ask => Some(Turn::CalledPasses),
        Kind::Fault => Some(Turn::Failed),
        _ => None,
    }
}

fn called_passes(kind: Kind) -> Option<Turn>
    ensures { result ≡ next_of CalledPasses kind }
{
    match kind {
        Kind::Turn => Some(Turn::CallerAsks),
        Kind::Fault => Some(Turn::Failed),
        _ => None,
    }
}

fn caller_asks(kind: Kind) -> Option<Turn>
    ensures { result ≡ next_of CallerAsks kind }
{
    match kind {
        Kind::Ask => Some(Turn::CallerTells),
        Kind::Fault => Some(Turn::Failed),
        _ => None,
    }
}

fn caller_tells(kind: Kind) -> Option<Turn>
    ensures { result ≡ next_of CallerTells kind }
{
    match kind {
        Kind::Begin => Some(Turn::CallerTellsFile),
        Kind::Whole | Kind::Records | Kind::PushOuts => Some(Turn::CallerTells),
        Kind::Turn => Some(Turn::CalledTells),
        Kind::Fault => Some(Turn::Failed),
        _ => None,
    }
}

fn caller_tells_file(kind: Kind) -> Option<Turn>
    ensures { result ≡ next_of CallerTellsFile kind }
{
    match kind {
        Kind::Piece => Some(Turn::CallerTellsFile),
        Kind::End => Some(Turn::CallerTells),
        Kind::Fault => Some(Turn::Failed),
        _ => None,
    }
}

fn called_tells(kind: Kind) -> Option<Turn>
    ensures { result ≡ next_of CalledTells kind }
{
    match kind {
        Kind::Begin => Some(Turn::CalledTellsFile),
        Kind::Whole | Kind::Records | Kind::PushOuts | Kind::Receipts | Kind::Wants => {
            Some(Turn::CalledTells)
        }
        Kind::Turn => Some(Turn::CallerSettles),
        Kind::Done => Some(Turn::CallerWants),
        Kind::Fault => Some(Turn::Failed),
        _ => None,
    }
}

fn called_tells_file(kind: Kind) -> Option<Turn>
    ensures { result ≡ next_of CalledTellsFile kind }
{
    match kind {
        Kind::Piece => Some(Turn::CalledTellsFile),
        Kind::End => Some(Turn::CalledTells),
        Kind::Fault => Some(Turn::Failed),
        _ => None,
    }
}

fn caller_settles(kind: Kind) -> Option<Turn>
    ensures { result ≡ next_of CallerSettles kind }
{
    match kind {
        Kind::Begin => Some(Turn::CallerSettlesFile),
        Kind::Whole | Kind::Missing | Kind::Receipts | Kind::Wants => Some(Turn::CallerSettles),
        Kind::Turn => Some(Turn::CalledSettles),
        Kind::Done => Some(Turn::CalledCloses),
        Kind::Fault => Some(Turn::Failed),
        _ => None,
    }
}

fn caller_settles_file(kind: Kind) -> Option<Turn>
    ensures { result ≡ next_of CallerSettlesFile kind }
{
    match kind {
        Kind::Piece => Some(Turn::CallerSettlesFile),
        Kind::End => Some(Turn::CallerSettles),
        Kind::Fault => Some(Turn::Failed),
        _ => None,
    }
}

fn caller_wants(kind: Kind) -> Option<Turn>
    ensures { result ≡ next_of CallerWants kind }
{
    match kind {
        Kind::Receipts | Kind::Wants => Some(Turn::CallerWants),
        Kind::Turn => Some(Turn::CalledSettles),
        Kind::Done => Some(Turn::Over),
        Kind::Fault => Some(Turn::Failed),
        _ => None,
    }
}

fn called_settles(kind: Kind) -> Option<Turn>
    ensures { result ≡ next_of CalledSettles kind }
{
    match kind {
        Kind::Begin => Some(Turn::CalledSettlesFile),
        Kind::Whole | Kind::Missing | Kind::Receipts => Some(Turn::CalledSettles),
        Kind::Done => Some(Turn::CallerCloses),
        Kind::Fault => Some(Turn::Failed),
        _ => None,
    }
}

fn called_settles_file(kind: Kind) -> Option<Turn>
    ensures { result ≡ next_of CalledSettlesFile kind }
{
    match kind {
        Kind::Piece => Some(Turn::CalledSettlesFile),
        Kind::End => Some(Turn::CalledSettles),
        Kind::Fault => Some(Turn::Failed),
        _ => None,
    }
}

fn called_closes(kind: Kind) -> Option<Turn>
    ensures { result ≡ next_of CalledCloses kind }
{
    match kind {
        Kind::Receipts => Some(Turn::CalledCloses),
        Kind::Done => Some(Turn::Over),
        Kind::Fault => Some(Turn::Failed),
        _ => None,
    }
}

fn caller_closes(kind: Kind) -> Option<Turn>
    ensures { result ≡ next_of CallerCloses kind }
{
    match kind {
        Kind::Receipts => Some(Turn::CallerCloses),
        Kind::Done => Some(Turn::Over),
        Kind::Fault => Some(Turn::Failed),
        _ => None,
    }
}
