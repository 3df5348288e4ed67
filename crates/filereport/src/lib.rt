// The report on a file that is open: read, split and printed. The report program and the program that replays files share it, so
// that stored files of every length try what the report program does.
#![tactic(auto)]

use std::io;
use std::io::Read;

// Reads a file to its end, or 65,536 bytes of it, which decide the report of the whole (theorem `front_enough` of splitfile), and prints
// the report.
pub fn print_report<R: Read>(rt: &impl Print, file: &mut R) -> io::Result<()> {
    let mut text = [0u8; 65536];
    let n = readfull::read_full(file, &mut text)?;
    let mut out = [0u8; 20000];
    let length = splitfile::split_file(&text[..n], &mut out);
    rt.write_all(&out[..length])
}
