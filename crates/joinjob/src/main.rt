// The job program: reads a job from standard input and writes its text to standard output.
#![tactic(auto)]

use intake::read_full;

fn main(rt: HostRuntime) {
    // One byte above the limit, so that a job too long is told as such.
    let mut bytes = [0u8; 16385];
    let Ok(n) = read_full(&mut rt.stdin(), &mut bytes) else {
        let _ = rt.eprintln("joinjob: standard input cannot be read");
        return;
    };
    let mut text = [0u8; 65536];
    let k = job::run(&bytes[..n], &mut text);
    if rt.write_all(&text[..k]).is_err() {
        let _ = rt.eprintln("joinjob: standard output cannot be written");
    }
}
