// Bytes that are all alike.
ghost use Rattle.std.specs.Prelude.{◌≡◌, ◌==◌, ◌↔◌, ◌≤◌, length, replicate, All, IsTrue};
ghost use Rattle.std.specs.List.{list_all};

// How many bytes are compared at once, as words or vectors of the processor.
const RUN: usize = 64;

fn run_is(run: &[u8; RUN], value: u8) -> bool
    ensures { result ≡ list_all (λ b. b == value) run.now }
{
    *run == [value; RUN]
}

fn runs_are(runs: &[[u8; RUN]], value: u8) -> bool
    ensures { result ≡ list_all (λ run. list_all (λ b. b == value) run) runs.now }
{
    runs.iter().all(|run| run_is(run, value))
}

fn rest_is(rest: &[u8], value: u8) -> bool
    requires { length rest.now ≤ 64 }
    ensures { result ≡ list_all (λ b. b == value) rest.now }
{
    rest == &[value; RUN][..rest.len()]
}

fn test_all(bytes: &[u8], value: u8) -> bool
    ensures { result ≡ list_all (λ b. b == value) bytes.now }
{
    let (runs, rest) = bytes.as_chunks::<RUN>();
    runs_are(runs, value) && rest_is(rest, value)
}

/// Whether each of these bytes has this value.
pub fn all_are(bytes: &[u8], value: u8) -> bool
    ensures each { IsTrue result ↔ All (λ b. b ≡ value) bytes.now }
    ensures test { result ≡ list_all (λ b. b == value) bytes.now }
    ensures list { IsTrue result ↔ (bytes.now ≡ replicate (length bytes.now) value) }
{
    test_all(bytes, value)
}
