//! Laws of whole streams, for the layers above: whatever calls a reader gets, and whatever they answer.
ghost use Rattle.std.specs.Prelude.{◌≡◌, ◌≢◌, ◌++◌, ℕ, List, [], Option, Some, Err};
ghost use Rattle.mr_wire.specs.Decoding.{decoded};
ghost use Rattle.mr_wire.specs.Grammar.{Spells};
ghost use Rattle.mr_wire.specs.declared.fault.WireFault.TheVariants.{Truncated};
ghost use Rattle.mr_wire.specs.declared.frame.Frame.{Frame};
ghost use Rattle.mr_frames.specs.Stream.{AreFrames};
ghost use Rattle.mr_frames.specs.Calls.{AreAlike, Call, ComesTo, IsDrained, Runs, fed, given, told};

/// What was fed to a reader is the spellings of the frames that it gave, in their order, and then its
/// rest. It tells at most one fault, which is that of the rest.
pub fn fed_bytes_are_frames_and_rest()
    ensures { (calls : List Call) (state : Option (List ℕ)) → Runs (Some []) calls state
        → ComesTo (fed calls) (given calls) (told calls) state }
{}

/// Two readers that were fed the same bytes, in whatever pieces, and were asked until they had nothing
/// more to give, gave the same frames, told the same fault if any, and have the same rest.
pub fn cuts_have_no_effect()
    ensures { (calls others : List Call) (state other : Option (List ℕ)) → Runs (Some []) calls state
        → Runs (Some []) others other → fed calls ≡ fed others → IsDrained state → IsDrained other
        → AreAlike calls others state other }
{}

/// A reader that was fed the spellings of frames and then a part of one, and was asked until it had
/// nothing more to give, gave just these frames and has that part.
pub fn whole_frames_are_given()
    ensures { (calls : List Call) (state : Option (List ℕ)) (frames : List Frame) (rest : List ℕ)
        → Runs (Some []) calls state → IsDrained state → AreFrames (fed calls) frames rest
        → decoded rest ≡ Err Truncated → (given calls ≡ frames) × (state ≡ Some rest) }
{}

/// A spelling of a frame that lacks its end is truncated, and not a frame or another fault.
pub fn part_of_a_frame_is_truncated()
    ensures { (format : ℕ) (f : Frame) (part more : List ℕ) → Spells format f (part ++ more) → more ≢ []
        → decoded part ≡ Err Truncated }
{}

/// Bytes behind a stream, by what they are put behind.
///
/// Where bytes are frames and then a rest, with more bytes they are the same frames and then the rest with
/// these bytes. Where that again is frames and then a rest, all of it is the frames of both, and the last rest.
pub fn frames_behind_frames()
    ensures more { (bytes : List ℕ) (frames : List Frame) (rest more : List ℕ) → AreFrames bytes frames rest
        → AreFrames (bytes ++ more) frames (rest ++ more) }
    ensures on { (bytes : List ℕ) (frames others : List Frame) (rest end : List ℕ) → AreFrames bytes frames rest
        → AreFrames rest others end → AreFrames bytes (frames ++ others) end }
    ensures whole { (bytes more : List ℕ) (frames others : List Frame) (rest end : List ℕ) → AreFrames bytes frames rest
        → AreFrames (rest ++ more) others end → AreFrames (bytes ++ more) (frames ++ others) end }
{}
