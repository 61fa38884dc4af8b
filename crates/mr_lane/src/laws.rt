//! What holds of every inbox, for the layers above. The functions compute nothing: each is a law, whose
//! contract is a theorem.
ghost use Rattle.std.specs.Prelude.{◌≡◌, Bool, List};
ghost use Rattle.mr_lane.specs.declared.note.Note.{Note};
ghost use Rattle.mr_lane.specs.declared.note.Sender.{Sender};
ghost use Rattle.mr_lane.specs.Inbox.{IsAllOf};
ghost use Rattle.mr_lane.specs.Letters.{letters_by, letters_in};
ghost use Rattle.mr_lane.specs.Note.{pieces_by, sender_number};
ghost use Rattle.mr_lane.specs.Piece.{items_of, pieces};
ghost use Rattle.mr_lane.specs.Post.{PostView};

/// The letters of one sender, among notes of all.
///
/// The items of its pieces are its letters, in order. Where its post was taken in whole, they are what that
/// post sent.
pub fn letters_of_one_sender<T>()
    ensures items { (sent : List T) (ended : Bool) → items_of (pieces sent ended) ≡ sent }
    ensures letters { (sender : Sender) (taken : List (Note T)) → items_of (pieces_by (sender_number sender) taken) ≡ letters_by sender (letters_in taken) }
    ensures whole { (taken : List (Note T)) (post : PostView T) → IsAllOf taken post → letters_by post.sender (letters_in taken) ≡ post.sent }
{}
