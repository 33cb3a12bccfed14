// What words ask for.
ghost use Rattle.std.specs.Prelude.{◌≡◌, ◌<◌, ◌++◌, IfOk, codes, map};
ghost use Rattle.std.specs.String.{string_bytes};
ghost use Rattle.look_text.specs.Whys.{Explains};
ghost use Rattle.look_text.specs.declared.why.Why.{Why};
ghost use Rattle.look_words.specs.Sentences.{why_text as why_of};
ghost use Rattle.look_commands.specs.Told.{Answers, WritesWhy, behind};

use crate::forks::fork;
use crate::gdb::{Program, gdb};
use crate::images::image;
use crate::maps::{map, scan};
use crate::refusals::{why_script, why_text};
use crate::runs::{Shown, end};
use crate::said::{print, print_made, say, tell};
use crate::streams::Streams;
use crate::traces::trace;
use look_gdb::Settings;
use look_report::Shape;
use look_text::info_text;
use look_words::status::{BAD_WORDS, NO_MEMORY};
use look_words::{Look, explanation, name_at, read_look, refusal_text};
use mix_bits::NoMemory;
use std::alloc::Global;
use std::io::{Read, Write};
use std::rt::Files;
use wrapped_forks::Fork;

/// Does what the words ask for, and answers the status. Behind the refusal of words, `usage` is put to the errors.
pub fn answer<F: Files, R: Read + Drop, W: Write + Drop, E: Write + Drop>(
    alloc: Global,
    files: &F,
    words: &[String],
    usage: &str,
    streams: &mut Streams<R, W, E>,
) -> u8
    ensures { Answers (map string_bytes words.now) (R.remaining streams.old.input) (W.contents streams.old.out) (W.contents streams.new.out) result }
{
    let status = obey(alloc, files, words, streams);
    if status == BAD_WORDS {
        tell(&mut streams.errors, usage.as_bytes());
    }
    status
}

/// The same without the usage.
fn obey<F: Files, R: Read + Drop, W: Write + Drop, E: Write + Drop>(
    alloc: Global,
    files: &F,
    words: &[String],
    streams: &mut Streams<R, W, E>,
) -> u8
    ensures { Answers (map string_bytes words.now) (R.remaining streams.old.input) (W.contents streams.old.out) (W.contents streams.new.out) result }
{
    match read_look(words) {
        Ok(Look::Info(word)) => print_made(&mut streams.out, info_text(alloc, word)),
        Ok(Look::Trace(file, names)) => trace(
            alloc,
            files,
            words,
            Shape::Tree,
            file,
            names,
            streams,
        ),
        Ok(Look::Picture(file, names)) => trace(
            alloc,
            files,
            words,
            Shape::Picture,
            file,
            names,
            streams,
        ),
        Ok(Look::Fork(file)) => fork(alloc, files, name_at(words, file), Fork::Resource, streams),
        Ok(Look::Data(file)) => fork(alloc, files, name_at(words, file), Fork::Data, streams),
        Ok(Look::Gdb(server)) => gdb(
            alloc,
            files,
            words,
            Program {
                input: server.input.map(|place| name_at(words, place)),
                settings: Settings {
                    is_traced: server.is_traced,
                    keep: server.keep,
                },
            },
            streams,
        ),
        Ok(Look::Words) => why(alloc, words, &mut streams.out),
        Ok(Look::WhyScript(file)) => why_script(alloc, files, name_at(words, file), streams),
        Ok(Look::WhyText(set, file, at)) => why_text(
            alloc,
            files,
            set,
            name_at(words, file),
            at,
            streams,
        ),
        Ok(Look::Map) => map(alloc, files, words, streams),
        Ok(Look::Scan) => scan(alloc, files, words, streams),
        Ok(Look::End(last, frames)) => end(alloc, files, words, Shown { last, frames }, streams),
        Ok(Look::Image(file, span, frames)) => image(
            alloc,
            files,
            name_at(words, file),
            span,
            frames,
            streams,
        ),
        Err(refusal) => {
            if let Ok(text) = refusal_text(alloc, words, refusal) {
                say(&mut streams.errors, text.as_bytes());
            }
            BAD_WORDS
        }
    }
}

/// Says why mixedrun refuses the words behind the first one.
fn why<W: Write>(alloc: Global, words: &[String], out: &mut W) -> u8
    ensures { WritesWhy (behind (map string_bytes words.now)) (W.contents out.old) (W.contents out.new) result }
{
    match line(alloc, asked(words)) {
        Ok(text) => print(out, text.as_bytes()),
        Err(NoMemory) => NO_MEMORY,
    }
}

/// The words behind the first one.
fn asked(words: &[String]) -> &[String]
    ensures { map string_bytes result.now ≡ behind (map string_bytes words.now) }
{
    match words {
        [_, asked @ ..] => asked,
        [] => words,
    }
}

/// Why mixedrun refuses words, as a line.
fn line(alloc: Global, words: &[String]) -> Result<String, NoMemory>
    ensures { IfOk result (λ text. (why : Why) × Explains (map string_bytes words.now) why × (string_bytes text ≡ why_of (map string_bytes words.now) why ++ codes "\n")) }
{
    let mut text = explanation(alloc, words)?;
    text.push_str("\n")?;
    Ok(text)
}
