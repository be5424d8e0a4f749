// What `box_out` does with its words and its file, and what it says on which side.
#![tactic(auto)]

ghost use Rattle.std.specs.Prelude.{◌≡◌};
ghost use Rattle.asking.specs.Words.{type_of, instance_of};
ghost use Rattle.desk.specs.Desk.{reply_to, served, Served, Replies};

use answers::Answer;

// How it is used; or a refusal; or so many bytes of the box.
#[derive(Clone, Copy)]
pub enum Reply {
    Usage,
    Refused(Answer),
    Bytes(usize),
}

// What a call's answer comes to.
fn reply_to(a: Answer) -> Reply
    ensures { result ≡ reply_to a }
{
    if a.number == 0 {
        return Reply::Bytes(a.place);
    }
    Reply::Refused(a)
}

// The box of a file, which may have so many bytes at most.
fn served(file: &[u8], most: usize, kind: u32, instance: u16, bytes: &mut [u8]) -> Reply
    ensures { Served file.now most kind instance bytes.old bytes.new result }
{
    if most < file.len() {
        return reply_to(Answer {
            number: 20,
            place: 0,
            second: 0,
        });
    }
    let a = boxes::box_bytes(file, kind, instance, bytes);
    reply_to(a)
}

// The reply to two words.
pub fn asked(
    type_word: &[u8],
    instance_word: &[u8],
    file: &[u8],
    most: usize,
    bytes: &mut [u8],
) -> Reply
    ensures { Replies (type_of type_word.now) (instance_of instance_word.now) file.now most
        bytes.old bytes.new result }
{
    let kind = asking::type_of(type_word);
    let instance = asking::instance_of(instance_word);
    match kind {
        None => Reply::Usage,
        Some(k) => match instance {
            None => Reply::Usage,
            Some(i) => {
                if 4294967295 < k {
                    return Reply::Usage;
                }
                if 65535 < i {
                    return Reply::Usage;
                }
                served(file, most, k as u32, i as u16, bytes)
            }
        },
    }
}

// A refusal's line.
fn say_refused(side: i32, a: Answer) {
    let mut line = [0u8; 64];
    let k = listing_text::answer_line(a.number, a.place, &mut line);
    if k <= 64 {
        io::write_all(side, &line[0..k]);
    }
}

// The reply said: a box on one side, a line on the other. Whether a box was handed out.
pub fn say(out: i32, err: i32, r: Reply, bytes: &[u8]) -> bool
    ensures { result ≡ served r }
{
    match r {
        Reply::Usage => {
            io::write_all(err, b"usage: box_out TYPE INSTANCE < FILE\n");
            false
        }
        Reply::Refused(a) => {
            say_refused(err, a);
            false
        }
        Reply::Bytes(k) => {
            if k <= bytes.len() {
                io::write_all(out, &bytes[0..k]);
            }
            true
        }
    }
}
