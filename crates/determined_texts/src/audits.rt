// The audits of `bao_bind`.

ghost use Rattle.std.specs.Prelude.{◌≡◌, ◌↔◌, ℕ, IsErr, None, Ok, Some};
ghost use Rattle.b3word.specs.declared.input.Input.{Input};
ghost use Rattle.determined_texts.specs.Texts.{SamePiece};
ghost use Rattle.bao_bind.specs.declared.verdict.ParentVerdict.TheVariants.{Agrees as ParentsAgree, OtherLength};
ghost use Rattle.bao_bind.specs.declared.verdict.Verdict.TheVariants.{Agrees};

use b3tree::Input;
use bao_bind::{AuditFault, ParentVerdict, Verdict, audit, audit_all, audit_parents};
use bao_check::Checked;

// Of two pieces that are the same. Which collision it exhibits isn't determined.
pub fn audit_determined(
    blob: &[u8],
    a: &Checked<'_>,
    b: &Checked<'_>,
) -> (Result<Verdict, AuditFault>, Result<Verdict, AuditFault>)
    requires { SamePiece a.now b.now }
    ensures other_root { IsErr result.0 ↔ IsErr result.1 }
    ensures agrees { (result.0 ≡ Ok Agrees) ↔ (result.1 ≡ Ok Agrees) }
{
    (audit(blob, a), audit(blob, b))
}

// Of two pieces that are the same. Which collision it exhibits isn't determined.
pub fn audit_parents_determined(
    blob: &[u8],
    a: &Checked<'_>,
    b: &Checked<'_>,
) -> (
    Result<ParentVerdict, AuditFault>,
    Result<ParentVerdict, AuditFault>,
)
    requires { SamePiece a.now b.now }
    ensures other_root { IsErr result.0 ↔ IsErr result.1 }
    ensures agrees { (result.0 ≡ Ok ParentsAgree) ↔ (result.1 ≡ Ok ParentsAgree) }
    ensures other_length { (result.0 ≡ Ok OtherLength) ↔ (result.1 ≡ Ok OtherLength) }
{
    (audit_parents(blob, a), audit_parents(blob, b))
}

// Which collision it exhibits isn't determined; of which piece it is, is.
pub fn audit_all_determined(
    blob: &[u8],
    pieces: &[Checked<'_>],
) -> (
    Result<Option<(usize, Input, Input)>, AuditFault>,
    Result<Option<(usize, Input, Input)>, AuditFault>,
)
    ensures none { (result.0 ≡ Ok None) ↔ (result.1 ≡ Ok None) }
    ensures forged { (i : ℕ) → ((ours theirs : Input) × (result.0 ≡ Ok (Some (i, ours, theirs)))) ↔ ((ours theirs : Input) × (result.1 ≡ Ok (Some (i, ours, theirs)))) }
    ensures other_root { IsErr result.0 ↔ IsErr result.1 }
{
    (audit_all(blob, pieces), audit_all(blob, pieces))
}
