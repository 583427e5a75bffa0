ghost use Rattle.std.specs.Prelude.{◌≡◌, ◌+◌, ◌++◌, ◌^◌, ◌≤◌, ◌<◌, length, IfOk, OnOk, string_bytes};
ghost use Rattle.std.specs.Str.{IsUtf8};
ghost use Rattle.or_prefix.specs.Printing.{group_text, groups, longest_run, octets, prefix_text, run_start, v4_text, v6_text, zero_run};

use or_base::{NoMemory, Prefix};
use std::alloc::Global;

/// The eight groups of an IPv6 address, the highest first.
fn groups(bits: u128) -> [u16; 8]
    ensures { result ≡ groups bits }
{
    [
        (bits >> 112) as u16,
        ((bits >> 96) % 65536) as u16,
        ((bits >> 80) % 65536) as u16,
        ((bits >> 64) % 65536) as u16,
        ((bits >> 48) % 65536) as u16,
        ((bits >> 32) % 65536) as u16,
        ((bits >> 16) % 65536) as u16,
        (bits % 65536) as u16,
    ]
}

/// How many groups of 0 groups begin with.
#[tactic(auto, using(crate::proofs::Runs::zero_run_steps))]
fn zero_run(groups: &[u16]) -> usize
    ensures { result ≡ zero_run groups.now }
{
    for (place, &group) in groups.iter().enumerate() {
        if group != 0 {
            return place;
        }
    }
    groups.len()
}

/// The length of the longest run of groups of 0.
#[tactic(auto, using(crate::proofs::Runs::longest_run_steps, std::proofs::lemmas::List::take_rest))]
fn longest_run(groups: &[u16]) -> usize
    ensures { result ≡ longest_run groups.now }
{
    let mut longest = 0;
    for start in 0..groups.len() {
        longest = longest.max(zero_run(&groups[start..]));
    }
    longest
}

/// Where the first run of this length begins.
#[tactic(auto, using(crate::proofs::Runs::run_start_steps, std::proofs::lemmas::List::take_rest))]
fn run_start(run: usize, groups: &[u16]) -> usize
    requires { run ≡ longest_run groups.now }
    ensures start { result ≡ run_start run groups.now }
    ensures within { result + run ≤ length groups.now }
{
    for start in 0..groups.len() {
        if zero_run(&groups[start..]) == run {
            return start;
        }
    }
    groups.len()
}

/// Groups in lower case hexadecimal without leading zeros, joined by colons.
#[tactic(auto, using(crate::proofs::Runs::text_steps))]
fn group_text(out: &mut String, groups: &[u16]) -> Result<(), NoMemory>
    ensures { OnOk result (string_bytes out.new ≡ string_bytes out.old ++ group_text groups.now) }
{
    if let Some((first, others)) = groups.split_first() {
        write!(out, "{first:x}")?;
        for group in others {
            write!(out, ":{group:x}")?;
        }
    }
    Ok(())
}

/// Groups by RFC 5952: the longest run of at least two groups of 0, the first of equal runs, is written `::`.
#[tactic(auto, unfolding(crate::specs::Printing::v6_text))]
fn v6_text(out: &mut String, groups: &[u16]) -> Result<(), NoMemory>
    ensures { OnOk result (string_bytes out.new ≡ string_bytes out.old ++ v6_text groups.now) }
{
    let run = longest_run(groups);
    if run < 2 {
        group_text(out, groups)?;
        return Ok(());
    }
    let start = run_start(run, groups);
    group_text(out, &groups[..start])?;
    out.push_str("::")?;
    group_text(out, &groups[start + run..])?;
    Ok(())
}

/// The address in dotted decimal.
#[tactic(auto, unfolding(crate::specs::Printing::v4_text))]
fn v4_text(out: &mut String, bits: u128) -> Result<(), NoMemory>
    requires { bits < 2 ^ 32 }
    ensures { OnOk result (string_bytes out.new ≡ string_bytes out.old ++ v4_text (octets bits)) }
{
    let first = bits >> 24;
    let second = (bits >> 16) % 256;
    let third = (bits >> 8) % 256;
    let fourth = bits % 256;
    write!(out, "{first}.{second}.{third}.{fourth}")?;
    Ok(())
}

/// The prefix as text: the address, `/` and the length.
#[tactic(auto, unfolding(crate::specs::Printing::prefix_text))]
pub fn prefix_text(alloc: Global, prefix: &Prefix) -> Result<Vec<u8>, NoMemory>
    ensures text { IfOk result (λ text. text.items ≡ prefix_text prefix.now.v6 prefix.now.bits prefix.now.len) }
    ensures utf8 { IfOk result (λ text. IsUtf8 text.items) }
{
    let mut out = String::new(alloc);
    if prefix.v6 {
        v6_text(&mut out, &groups(prefix.bits))?;
    } else {
        v4_text(&mut out, prefix.bits)?;
    }
    let len = prefix.len;
    write!(out, "/{len}")?;
    Ok(out.into_bytes())
}
