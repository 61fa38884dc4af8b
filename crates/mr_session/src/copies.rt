//! Copies of what sessions keep.
ghost use Rattle.std.specs.Prelude.{◌≡◌, ◌++◌, map, IfOk, OnOk};
ghost use Rattle.std.specs.Option.{option_map};
ghost use Rattle.mr_wire.specs.Values.{piece_of};

use mr_concise::ConciseVector;
use mr_forms::Fragment;
use mr_wire::FrameFragment;
use std::alloc::{AllocError, Global};
use std::collections::VecDeque;

// Puts equal vectors behind these, in the same order.
fn push_vectors(
    copied: &mut Vec<ConciseVector>,
    vectors: &[ConciseVector],
) -> Result<(), AllocError>
    ensures { OnOk result (copied.new.items ≡ copied.old.items ++ vectors.now) }
{
    for vector in vectors {
        copied.push(vector.copy()?)?;
    }
    Ok(())
}

/// Equal vectors, in the same order.
pub fn copied_vectors(
    alloc: Global,
    vectors: &[ConciseVector],
) -> Result<Vec<ConciseVector>, AllocError>
    ensures { IfOk result (λ copied. copied.items ≡ vectors.now) }
{
    let mut copied = Vec::with_capacity(alloc, vectors.len())?;
    push_vectors(&mut copied, vectors)?;
    Ok(copied)
}

// Equal vectors, in the same order, in a queue.
fn copied_waiting(
    alloc: Global,
    vectors: &VecDeque<ConciseVector>,
) -> Result<VecDeque<ConciseVector>, AllocError>
    ensures { IfOk result (λ copied. copied.items ≡ vectors.now.items) }
{
    let (front, back) = vectors.as_slices();
    let mut copied = Vec::with_capacity(alloc, vectors.len())?;
    push_vectors(&mut copied, front)?;
    push_vectors(&mut copied, back)?;
    Ok(VecDeque::from_vec(copied))
}

/// The same for a queue of vectors, where there is one.
pub fn copied_queue(
    alloc: Global,
    vectors: &Option<VecDeque<ConciseVector>>,
) -> Result<Option<VecDeque<ConciseVector>>, AllocError>
    ensures { IfOk result (λ copied. option_map (λ queue. queue.items) copied ≡ option_map (λ queue. queue.items) vectors.now) }
{
    match vectors {
        Some(waiting) => Ok(Some(copied_waiting(alloc, waiting)?)),
        None => Ok(None),
    }
}

// An equal fragment.
fn copied_fragment(
    fragment: &Fragment<ConciseVector>,
) -> Result<Fragment<ConciseVector>, AllocError>
    ensures { IfOk result (λ copy. piece_of copy ≡ piece_of fragment.now) }
{
    fragment.copy()
}

/// Equal fragments, in the same order.
pub fn copied_fragments(
    alloc: Global,
    fragments: &[Fragment<ConciseVector>],
) -> Result<Vec<Fragment<ConciseVector>>, AllocError>
    ensures { IfOk result (λ copied. map piece_of copied.items ≡ map piece_of fragments.now) }
{
    let mut copied = Vec::with_capacity(alloc, fragments.len())?;
    for fragment in fragments {
        copied.push(copied_fragment(fragment)?)?;
    }
    Ok(copied)
}

// Puts equal fragments behind these, in the same order.
fn push_pieces(
    copied: &mut Vec<FrameFragment>,
    fragments: &[FrameFragment],
) -> Result<(), AllocError>
    ensures { OnOk result (copied.new.items ≡ copied.old.items ++ fragments.now) }
{
    for fragment in fragments {
        copied.push(fragment.copy()?)?;
    }
    Ok(())
}

/// Equal fragments, in the same order, in a queue, as frames carry them.
pub fn copied_know(
    alloc: Global,
    fragments: &VecDeque<FrameFragment>,
) -> Result<VecDeque<FrameFragment>, AllocError>
    ensures { IfOk result (λ copied. copied.items ≡ fragments.now.items) }
{
    let (front, back) = fragments.as_slices();
    let mut copied = Vec::with_capacity(alloc, fragments.len())?;
    push_pieces(&mut copied, front)?;
    push_pieces(&mut copied, back)?;
    Ok(VecDeque::from_vec(copied))
}
