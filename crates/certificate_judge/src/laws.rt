//! What the verdicts tell.

ghost use Rattle.std.specs.Prelude.{◌≡◌, ◌↔◌, List, ℕ};
ghost use Rattle.certificates.specs.Certificate.{Certificate};
ghost use Rattle.certificates.specs.Layout.{certificate_grammar};
ghost use Rattle.certificates.specs.Written.{written};
ghost use Rattle.certificate_judge.specs.Faults.{faults};
ghost use Rattle.certificate_judge.specs.Verdicts.{IsVerdict, verdict_by};
ghost use Rattle.certificate_judge.specs.Right.{IsRight, TellsRight};
ghost use Rattle.certificate_judge.specs.declared.verdict.Verdict.{Verdict};
ghost use Rattle.certificate_judge.specs.declared.verdict.Verdict.TheVariants.{Sound};

/// Bytes that are sound are those of one certificate, and all that it says goes together: each count is how often the lists of its host name
/// its id, each id that they name has a count and a file in the pool, and each digest that was found is the one that its file is named by.
pub fn what_sound_says()
    ensures { (bytes : List ℕ) → IsVerdict bytes Sound → TellsRight bytes }
{}

/// No other bytes are sound: the verdict on bytes is Sound exactly if they are those of a certificate of which all goes together. What is
/// written of a certificate that fits the layout is never Foreign: the verdict on it is the one by its faults, so it is Sound exactly if
/// all that the certificate says goes together.
pub fn what_is_sound()
    ensures of_bytes { (bytes : List ℕ) (verdict : Verdict) → IsVerdict bytes verdict → (verdict ≡ Sound) ↔ TellsRight bytes }
    ensures by_faults { (c : Certificate) (verdict : Verdict) → certificate_grammar.Fits c → IsVerdict (written c) verdict
        → verdict ≡ verdict_by (faults c) }
    ensures of_written { (c : Certificate) (verdict : Verdict) → certificate_grammar.Fits c → IsVerdict (written c) verdict
        → (verdict ≡ Sound) ↔ IsRight c }
{}
