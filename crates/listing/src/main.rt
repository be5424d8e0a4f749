// Lists the packets of the file on standard input, of 64 KiB at most. The buffer takes one byte more, so that a longer file is told:
// the gate runs it on 65,537 bytes whose first 65,536 are a whole picture.
#![tactic(auto)]

fn main() {
    let mut file = [0u8; 65537];
    let n = io::read_full(0, &mut file);
    let mut text = [0u8; 131072];
    let a = listing_text::list_packets(&file[..n], &mut text);
    let k = a.place;
    if k <= 131072 {
        io::write_all(1, &text[0..k]);
    }
}
