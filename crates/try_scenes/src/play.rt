//! The transcript of a file of scenes.
use crate::form::Form;
use crate::scene::{Scene, SceneOver, answer_of};
use crate::words::{split_word, words};
use anyhow::{Result, bail};
use mr_script::Interpreter;
use std::sync::Wait;
use std::thread::Threads;

/// What a file of scenes comes to over a form of knowledge: each line that is no answer, with its answers. Lines behind
/// `over` and other forms stand as they are, with the answers that they have.
pub fn transcript<
    K: Form<Vector: Send> + Send,
    R: AllocGlobal + Threads + Wait + Sync + Send + Copy,
>(rt: &R, text: &str) -> Result<String> {
    let alloc = rt.alloc();
    let mut scene: SceneOver<K, R> = Scene::new(alloc, Interpreter::new(alloc));
    play(rt, &mut scene, text)
}

/// Does each line, and gives the transcript.
fn play<K: Form<Vector: Send> + Send, R: AllocGlobal + Threads + Wait + Sync + Send + Copy>(
    rt: &R,
    scene: &mut SceneOver<K, R>,
    text: &str,
) -> Result<String> {
    let mut played = String::new(rt.alloc());
    push_played(rt, scene, text, &mut played)?;
    Ok(played)
}

/// Does each line, and adds it to the transcript with its answers.
fn push_played<K: Form<Vector: Send> + Send, R: AllocGlobal + Threads + Wait + Sync + Send + Copy>(
    rt: &R,
    scene: &mut SceneOver<K, R>,
    text: &str,
    played: &mut String,
) -> Result<()> {
    let mut is_done = true;
    for line in text.lines() {
        if let ("over", forms) = split_word(line) {
            is_done = is_over(forms, K::name())?;
            push_lines(played, line, "")?;
        } else if !is_done {
            push_lines(played, line, "")?;
        } else if !line.starts_with(' ') {
            push_lines(played, line, answer_of(rt, scene, line)?.as_str())?;
        }
    }
    Ok(())
}

/// Whether these words name a form of knowledge, or all forms.
fn is_over(forms: &str, name: &str) -> Result<bool> {
    let mut is_named = false;
    for form in words(forms) {
        match form {
            "all" => is_named = true,
            "items" | "plain" | "sparing" => is_named = is_named || form == name,
            _ => bail!("{form} is no form of knowledge"),
        }
    }
    Ok(is_named)
}

/// Adds a line, and behind it the lines of its answer, each behind a space.
fn push_lines(played: &mut String, line: &str, answer: &str) -> Result<()> {
    played.push_str(line)?;
    played.push('\n')?;
    for told in answer.lines() {
        played.push(' ')?;
        played.push_str(told)?;
        played.push('\n')?;
    }
    Ok(())
}
