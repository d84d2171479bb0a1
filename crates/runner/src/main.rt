// The drill runner: reads one drill file and prints a line for each search. What it hands to each write is the next piece of the output of what it read; only that the bytes cross is outside.
#![tactic(auto)]

ghost use Rattle.std.specs.Prelude.{◌≡◌, ◌≤◌, length, take, Some};
ghost use Rattle.tables.specs.Lent.{lent, tables};
ghost use Rattle.drill_file.specs.File.{trailer_in};
ghost use Rattle.drill.specs.Output.{output};
ghost use Rattle.printing.specs.Promises.{WrittenTo};
ghost use Rattle.runner.specs.Own.{Own, Running};

use drill_file;
use drill_file::Trailer;
use drill_input;
use opening;
use plan::SHUT;
use printing;
use queue::ABSENT;
use tables::{Ahead, INFINITE};
use text::Text;

// Runs a file, whose trailer is passed along, on tables of its size: prints what begin leaves in the text, then plays and prints what is left over.
fn run<R: Print + Eprint>(
    rt: &R,
    input: &[u8],
    got: usize,
    file: &[u8],
    t: Trailer,
    count: &mut Option<usize>,
    plan: &mut [u8],
    g: &mut [u32],
    ahead: &mut Ahead,
    way: &mut [u16],
    text: &mut Text,
)
    requires t_value { t ≡ trailer_in file.now }
    requires running { Running input.now got file.now count.old (lent plan.old g.old ahead.old) way.old text.old.room.now }
    ensures { WrittenTo (length (output file.now)) count.new }
{
    let begun = opening::begin(file, t, plan, g, ahead, text);
    let left = printing::print_text(rt, input, got, text, begun, count);
    if left == 0 {
        return;
    }
    printing::play_all(
        rt,
        input,
        got,
        file,
        begun.at,
        left,
        begun.session,
        count,
        plan,
        g,
        ahead,
        way,
        text,
    );
}

// Runs the file that was read, on the parts of the tables that its size asks for. Here its trailer is read, and nowhere else.
// The tables come one by one, for parts of several fields of one struct cannot be lent at once.
fn run_file<R: Print + Eprint>(
    rt: &R,
    input: &[u8],
    got: usize,
    count: &mut Option<usize>,
    plan: &mut [u8],
    g: &mut [u32],
    rhs: &mut [u32],
    parent: &mut [u8],
    k1: &mut [u32],
    k2: &mut [u32],
    place: &mut [u16],
    list: &mut [u16],
    way: &mut [u16],
    text: &mut Text,
)
    requires got_in_bounds { got ≤ length input.now }
    requires unwritten { count.old ≡ Some 0 }
    requires own { Own (tables plan.old g.old rhs.old parent.old k1.old k2.old place.old list.old) way.old text.old.room.now }
    ensures { WrittenTo (length (output (take got input.now))) count.new }
{
    let file = printing::file_in(input, got);
    let t = drill_file::trailer_in(file);
    let n = drill_file::cells_told(t);
    let m = 4 * n;
    let mut ahead = Ahead {
        rhs: &mut rhs[0..n],
        parent: &mut parent[0..n],
        k1: &mut k1[0..n],
        k2: &mut k2[0..n],
        place: &mut place[0..n],
        list: &mut list[0..n],
    };
    run(
        rt,
        input,
        got,
        file,
        t,
        count,
        &mut plan[0..m],
        &mut g[0..n],
        &mut ahead,
        way,
        text,
    );
}

// Runs the file, the first `got` bytes of the input, on tables of its own.
fn run_input<R: Print + Eprint>(rt: &R, input: &[u8], got: usize)
    requires { got ≤ length input.now }
{
    let mut count = Some(0);
    let mut plan = [SHUT; 16384];
    let mut g = [INFINITE; 4096];
    let mut rhs = [INFINITE; 4096];
    let mut parent = [0u8; 4096];
    let mut k1 = [0u32; 4096];
    let mut k2 = [0u32; 4096];
    let mut place = [ABSENT; 4096];
    let mut list = [ABSENT; 4096];
    let mut way = [ABSENT; 4096];
    let mut room = [0u8; 65536];
    let mut text = Text {
        room: &mut room,
        used: 0,
    };
    run_file(
        rt,
        input,
        got,
        &mut count,
        &mut plan,
        &mut g,
        &mut rhs,
        &mut parent,
        &mut k1,
        &mut k2,
        &mut place,
        &mut list,
        &mut way,
        &mut text,
    );
}

// The file named by the first argument, or standard input where there is none; 65,537 bytes tell that it is too long.
fn main(rt: HostRuntime) {
    let mut input = [0u8; 65537];
    if let Some(got) = drill_input::read(&rt, &mut input) {
        run_input(&rt, &input, got);
    }
}
