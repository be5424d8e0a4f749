// Replies of `box_out`, what it says on either side written here on standard output: the box of case a, also in the long form, each kind of
// refusal that has a line, a file that is too long, and words that ask for nothing.
#![tactic(auto)]

fn say(text: &[u8]) {
    io::write_all(1, text);
}

// What is said for two words and a file of so many bytes at most.
fn show(type_word: &[u8], instance_word: &[u8], file: &[u8], most: usize) {
    let mut bytes = [46u8; 8];
    let r = desk::asked(type_word, instance_word, file, most, &mut bytes);
    if desk::say(1, 1, r, &bytes) {
        say(b" (a box)\n");
    } else {
        say(b"(no box)\n");
    }
    say(&bytes);
    say(b"\n");
}

// "FF D8 FF EB 00 15 4A 50 00 01 00 00 00 01 00 00 00 0B 4C 50 54 53 .. FF DA", with letters for its three bytes of payload
fn case_a(type_word: &[u8], instance_word: &[u8], most: usize) {
    show(
        type_word,
        instance_word,
        b"\xFF\xD8\xFF\xEB\x00\x15\x4A\x50\x00\x01\x00\x00\x00\x01\x00\x00\x00\x0B\x4C\x50\x54\x53abc\xFF\xDA",
        most,
    );
}

fn main() {
    case_a(b"LPTS", b"1", 27);
    case_a(b"4c505453", b"1", 64);
    case_a(b"LPTS", b"2", 64);
    case_a(b"LPTS", b"1", 26);
    show(b"LPTS", b"1", b"\xFF\xD8\xFF\xE0", 64);
    // the same box in the long form, in two packets, the second one first
    show(
        b"LPTS",
        b"1",
        b"\xFF\xD8\xFF\xEB\x00\x1C\x4A\x50\x00\x01\x00\x00\x00\x02\x00\x00\x00\x01\x4C\x50\x54\x53\x00\x00\x00\x00\x00\x00\x00\x13bc\xFF\xEB\x00\x1B\x4A\x50\x00\x01\x00\x00\x00\x01\x00\x00\x00\x01\x4C\x50\x54\x53\x00\x00\x00\x00\x00\x00\x00\x13a\xFF\xDA",
        64,
    );
    case_a(b"LPT", b"1", 64);
    case_a(b"LPTS", b"65536", 64);
    case_a(b"LPTS", b"", 64);
    case_a(b"4c50545G", b"1", 64);
}
