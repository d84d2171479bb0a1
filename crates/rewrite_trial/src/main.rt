// A trial of the writer: reads a drill file, writes it again from the parts that the reader finds in it, and prints what was written, or the number by which the file is refused.
#![tactic(auto)]

ghost use Rattle.std.specs.Prelude.{◌≤◌, length};
ghost use Rattle.rewrite_trial.specs.Again.{Again};

use drill_file;
use drill_writer;
use failure;
use input;
use lines;
use refusal::Refusal;
use text::Text;

// Writes a file again from its own parts.
fn rewrite(file: &[u8], room: &mut [u8]) -> Result<usize, Refusal>
    requires { length file.now ≤ length room.old }
    ensures { Again file.now room.old result room.new }
{
    let t = drill_file::trailer_in(file);
    drill_file::check_form(file, t)?;
    let plan = t.offset;
    let end = file.len() - drill_file::TRAILER;
    drill_writer::write(
        t.width,
        t.height,
        t.hunter,
        t.target,
        &file[..plan],
        &file[plan..end],
        room,
    )
}

// Prints a text, and tells if that failed.
fn print<R: Print + Eprint>(rt: &R, text: &[u8]) {
    if let Err(why) = rt.write_all(text) {
        failure::tell(rt, "write", why);
    }
}

// Prints the line of a refusal.
fn print_refusal<R: Print + Eprint>(rt: &R, refusal: Refusal) {
    let mut room = [0u8; 64];
    let mut line = Text {
        room: &mut room,
        used: 0,
    };
    lines::put_refusal(u8::from(refusal), &mut line);
    let used = line.used;
    print(rt, &room[..used]);
}

// Writes the file again and prints what was written.
#[tactic(auto, using(crate::proofs::AgainLaws::within))]
fn rewrite_input<R: Print + Eprint>(rt: &R, file: &[u8], room: &mut [u8])
    requires { length file.now ≤ length room.old }
{
    match rewrite(file, room) {
        Ok(bytes) => print(rt, &room[..bytes]),
        Err(refusal) => print_refusal(rt, refusal),
    }
}

// Reads the file, of which 65,537 bytes tell that it is too long.
fn main(rt: HostRuntime) {
    let mut input = [0u8; 65537];
    let mut room = [0u8; 65537];
    match input::read_whole(&mut rt.stdin(), &mut input) {
        Ok(got) => rewrite_input(&rt, &input[..got], &mut room),
        Err(why) => failure::tell(&rt, "standard input", why),
    }
}
