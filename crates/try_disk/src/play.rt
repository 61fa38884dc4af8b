//! The transcript of a file of scenes.
use crate::keeper::{Keeper, Taker};
use crate::scene::{Scene, do_line};
use crate::sweep::many_times;
use anyhow::{Context, Result};
use std::fs::File;
use std::rt::Files;

/// What a file of scenes comes to: each line that is no answer, with its answers.
pub fn transcript<J: Keeper, P: Taker, R: Files<File = File> + AllocGlobal>(
    rt: &R,
    text: &str,
) -> Result<String> {
    let mut scene: Scene<J, P> = Scene::new(rt.alloc());
    let mut scratch: Scene<J, P> = Scene::new(rt.alloc());
    let played = play(rt, &mut scene, &mut scratch, text);
    drop(scene);
    drop(scratch);
    played
}

/// Does each line, and adds it to the transcript with its answers.
fn play<J: Keeper, P: Taker, R: Files<File = File> + AllocGlobal>(
    rt: &R,
    scene: &mut Scene<J, P>,
    scratch: &mut Scene<J, P>,
    text: &str,
) -> Result<String> {
    let mut played = String::new(rt.alloc());
    for line in text.lines() {
        if !line.starts_with(' ') {
            let answer = answer_of(rt, scene, scratch, line).context(format_args!("doing {line}"))?;
            push_lines(&mut played, line, answer.as_str())?;
        }
    }
    Ok(played)
}

/// What a line answers: nothing, where it is empty or a comment.
fn answer_of<J: Keeper, P: Taker, R: Files<File = File> + AllocGlobal>(
    rt: &R,
    scene: &mut Scene<J, P>,
    scratch: &mut Scene<J, P>,
    line: &str,
) -> Result<String> {
    if line.is_empty() || line.starts_with('#') {
        return Ok(String::new(rt.alloc()));
    }
    match many_times(rt, scene, scratch, line) {
        Some(told) => told,
        None => do_line(rt, scene, line),
    }
}

/// Adds a line, and behind it the lines of its answer, each behind a space.
fn push_lines(played: &mut String, line: &str, answer: &str) -> Result<()> {
    played.push_str(line)?;
    played.push('\n')?;
    for told in answer.lines() {
        played.push(' ')?;
        played.push_str(told)?;
        played.push('\n')?;
    }
    Ok(())
}
