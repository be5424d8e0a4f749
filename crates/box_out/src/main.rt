// Hands out the box of a type and instance, the two arguments, of the file on standard input, of 2 MiB at most. A refusal is one line
// on standard error, and nothing on standard output.
#![tactic(auto)]

ghost use Rattle.std.specs.Prelude.{◌≤◌, length};

use std::env::Env;

// A buffer of zeros: an array that a function makes is not written out in the proof of its caller.
fn room<const N: usize>() -> [u8; N] {
    [0u8; N]
}

// The reply to two words. The file's buffer takes one byte more than a file may have, so that a longer one is told.
fn serve(type_word: &[u8], instance_word: &[u8]) {
    let mut file = room::<2097153>();
    let n = io::read_full(0, &mut file);
    let mut bytes = room::<2097152>();
    let r = desk::asked(type_word, instance_word, &file[..n], 2097152, &mut bytes);
    desk::say(1, 2, r, &bytes);
}

// A word of the command line, put into a buffer; of a word that is missing or longer, nothing.
fn word(rt: &impl Env, i: usize, buffer: &mut [u8]) -> usize
    ensures { result ≤ length buffer.new }
{
    match rt.arg(i, buffer) {
        Ok(n) => n,
        Err(_) => 0,
    }
}

fn main(rt: HostRuntime) {
    let mut first = [0u8; 16];
    let n = word(&rt, 1, &mut first);
    let mut second = [0u8; 16];
    let m = word(&rt, 2, &mut second);
    serve(&first[..n], &second[..m]);
}
