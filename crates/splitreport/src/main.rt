// The report program: it reads a mesh file of form 1 from standard input, splits its pinched vertices, and prints the report.
#![tactic(auto)]

use std::io;
use std::io::Input;

fn main(rt: HostRuntime) -> io::Result<()> {
    filereport::print_report(&rt, &mut rt.reader())
}
