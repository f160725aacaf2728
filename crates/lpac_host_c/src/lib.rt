// The host calls for C and Rust: a text is lent, or three published ones, and the verdict and the line come back as one number.

#![tactic(auto)]

ghost use Rattle.lpac_host.specs.Hosted.{Hosted, PublishedHosted};

// The number of the answer to a text.
#[unsafe(no_mangle)]
pub extern "C" fn lpac_verdict(text: &[u8]) -> u64
    ensures { Hosted text.now result }
{
    lpac_host::lpac_verdict(text)
}

// The number of the answer to three texts at k.
#[unsafe(no_mangle)]
pub extern "C" fn lpac_published_verdict(
    k: u64,
    constraints: &[u8],
    target: &[u8],
    proof: &[u8],
) -> u64
    ensures { PublishedHosted k (record { constraints = constraints.now; target = target.now; proof = proof.now }) result }
{
    lpac_host::lpac_published_verdict(k, constraints, target, proof)
}
