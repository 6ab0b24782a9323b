//! The faults of a module in the order in which they are listed.

ghost use Rattle.std.specs.Prelude.{◌≡◌, Some, IfOk, refl};
ghost use Rattle.std.specs.Ordering.{eq_by_cmp};
ghost use Rattle.std.specs.Cmp.{eq_by_cmp_equiv, partial_equiv_from_equiv, partial_order_from_total};
ghost use Rattle.canon_env.specs.Order.{finding_cmp, finding_total, IsInOrder};

use crate::finding::Finding;
use std::alloc::{AllocError, Global};
use std::cmp::Ordering;
use std::marker::Model;

/// A fault by its place in the order.
#[derive(Drop)]
struct Ranked {
    finding: Finding,
}

impl Model for Ranked {
    ghost use Rattle.canon_env.specs.declared.finding.Finding.{Finding};

    ghost Value = { Finding };

    ghost view = { λ r. r.finding };
}

/// How two faults are ordered.
fn compare(first: &Finding, second: &Finding) -> Ordering
    ensures { result ≡ finding_cmp first.now second.now }
{
    let by_code = first
        .code
        .code()
        .as_bytes()
        .cmp(&second.code.code().as_bytes());
    let by_column = first.place.column.cmp(&second.place.column);
    let after_column = by_code.then(first.detail.cmp(&second.detail));
    first
        .place
        .row
        .cmp(&second.place.row)
        .then(by_column.then(after_column))
}

impl PartialEq for Ranked {
    ghost eq = { eq_by_cmp finding_cmp };

    ghost laws = { partial_equiv_from_equiv (eq_by_cmp_equiv finding_total) };

    fn eq(&self, other: &Ranked) -> bool {
        compare(&self.finding, &other.finding).is_eq()
    }
}

impl Eq for Ranked {
    ghost laws = { eq_by_cmp_equiv finding_total };
}

impl PartialOrd for Ranked {
    ghost partial_cmp = { λ x y. Some (finding_cmp x y) };

    ghost laws = { partial_order_from_total finding_total };

    fn partial_cmp(&self, other: &Ranked) -> Option<Ordering> {
        Some(self.cmp(other))
    }
}

impl Ord for Ranked {
    ghost cmp = { finding_cmp };

    ghost total = { finding_total };

    ghost matches_partial_cmp = { λ x y. refl };

    ghost matches_eq = { λ x y. refl };

    fn cmp(&self, other: &Ranked) -> Ordering {
        compare(&self.finding, &other.finding)
    }
}

/// Faults by their places in the order.
fn ranks_of(alloc: Global, findings: Vec<Finding>) -> Result<Vec<Ranked>, AllocError>
    ensures { IfOk result (λ v. v.items ≡ findings.items) }
{
    let mut ranked = Vec::new(alloc);
    for finding in findings {
        ranked.push(Ranked { finding })?;
    }
    Ok(ranked)
}

/// The faults themselves.
fn findings_of(alloc: Global, ranked: Vec<Ranked>) -> Result<Vec<Finding>, AllocError>
    ensures { IfOk result (λ v. v.items ≡ ranked.items) }
{
    let mut findings = Vec::new(alloc);
    for one in ranked {
        findings.push(one.finding)?;
    }
    Ok(findings)
}

/// The faults `findings` in order: by place, then by code, then by detail, and each once. The error means that memory
/// ran out.
pub fn in_order(alloc: Global, findings: Vec<Finding>) -> Result<Vec<Finding>, AllocError>
    ensures { IfOk result (λ v. IsInOrder findings.items v.items) }
{
    let mut ranked = ranks_of(alloc, findings)?;
    ranked.sort_unstable();
    ranked.dedup();
    findings_of(alloc, ranked)
}
