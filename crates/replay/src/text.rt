// What the job program prints of a job, against the recorded text.

// Whether the bytes printed are the text, byte for byte.
pub fn text_same(job: &[u8], text: &[u8]) -> bool {
    let mut out = [0u8; 65536];
    let n = job::run(job, &mut out);
    &out[..n] == text
}
