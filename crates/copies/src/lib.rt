// The bytes of a box put into its destination, in file order or by number (docs/RULES.md, P10).
#![tactic(auto)]

ghost use Rattle.std.specs.Prelude.{◌≡◌, ◌+◌, ◌≤◌, ◌<◌, length, take, drop};
ghost use Rattle.box_rules.specs.Box.{joined_from, joined};
ghost use Rattle.box_rules.specs.Order.{payloads};
ghost use Rattle.scans.specs.Code.{mine_of};
ghost use Rattle.copies.specs.Code.{put_at, Numbered, Windowed};

use packets::Sought;

// Copies len bytes of the file from start on to the destination at position to. (A loop: `copy_from_slice` makes the library need memmove from outside.)
fn copy_part(file: &[u8], start: usize, len: usize, destination: &mut [u8], to: usize)
    requires { (start + len ≤ length file.now) × (to + len ≤ length destination.old) }
    ensures { destination.new ≡ put_at destination.old to (take len (drop start file.now)) }
{
    for i in 0..len {
        destination[to + i] = file[start + i];
    }
}

// Puts the payloads at the front, in file order.
pub fn put_in_order(sought: Sought, destination: &mut [u8])
    requires { length (payloads (mine_of sought.file.now sought.kind sought.instance)) ≤ length destination.old }
    ensures { destination.new ≡ put_at destination.old 0 (payloads (mine_of sought.entry.file.now sought.entry.kind sought.entry.instance)) }
{
    let mut at: usize = 2;
    let mut to: usize = 0;
    loop {
        if let Some(here) = sought.here(at) {
            copy_part(sought.file, at + 20, here - 18, destination, to);
            to += here - 18;
            at = at + 2 + here;
        } else if let Some(mine) = sought.next_from(at) {
            copy_part(sought.file, mine.start, mine.len, destination, to);
            to += mine.len;
            at = mine.next;
        } else {
            return;
        }
    }
}

// Puts the payloads of the k packets behind number `passed` at position to, and answers the position after them. One walk of the
// file finds where they stand.
fn put_window(
    sought: Sought,
    passed: usize,
    k: usize,
    places: &mut [usize],
    destination: &mut [u8],
    to: usize,
) -> usize
    requires { Windowed (mine_of sought.file.now sought.kind sought.instance) passed k (length places.old) to (length destination.old) }
    ensures { (destination.new ≡ put_at destination.old to (joined_from k (passed + 1) (mine_of sought.entry.file.now sought.entry.kind sought.entry.instance)))
        × (result ≡ to + length (joined_from k (passed + 1) (mine_of sought.entry.file.now sought.entry.kind sought.entry.instance))) }
{
    windows::locate(sought, passed, places);
    let mut end = to;
    for i in 0..k {
        let at = places[i];
        if let Some(here) = sought.here(at) {
            copy_part(sought.file, at + 20, here - 18, destination, end);
            end += here - 18;
        } else if let Some(mine) = sought.next_from(at) {
            copy_part(sought.file, mine.start, mine.len, destination, end);
            end += mine.len;
        } else {
            return end;
        }
    }
    end
}

// Puts the payloads of n packets at the front, by number, with an array that takes the places of a window.
fn put_windows(sought: Sought, n: usize, places: &mut [usize], destination: &mut [u8])
    requires { (0 < length places.old) × Numbered (mine_of sought.file.now sought.kind sought.instance) n (length destination.old) }
    ensures { destination.new ≡ put_at destination.old 0 (joined (mine_of sought.entry.file.now sought.entry.kind sought.entry.instance)) }
{
    let mut passed: usize = 0;
    let mut to: usize = 0;
    // A while: the numbers are passed by windows, of which the last may be narrower.
    while passed < n {
        let k = windows::lesser(n - passed, places.len());
        to = put_window(sought, passed, k, places, destination, to);
        passed += k;
    }
}

// Puts the payloads of n packets at the front, by number.
pub fn put_by_number(sought: Sought, n: usize, destination: &mut [u8])
    requires { Numbered (mine_of sought.file.now sought.kind sought.instance) n (length destination.old) }
    ensures { destination.new ≡ put_at destination.old 0 (joined (mine_of sought.entry.file.now sought.entry.kind sought.entry.instance)) }
{
    let mut places = [0usize; 16384];
    put_windows(sought, n, &mut places, destination);
}
