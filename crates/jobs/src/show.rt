// One job's text, after a line that names the job.
use std::io;

pub fn show(rt: &impl Print, name: &str, number: u64, job: &[u8]) -> io::Result<()> {
    println!(rt; "{name} {number}")?;
    let mut text = [0u8; 65536];
    let n = job::run(job, &mut text);
    rt.write_all(&text[..n])
}
