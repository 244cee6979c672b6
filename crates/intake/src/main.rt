// The program `intake`: frames from standard input, a reply a line to standard output.
#![tactic(auto)]

mod console;

fn main(rt: HostRuntime) {
    console::answer_input(&rt);
}
