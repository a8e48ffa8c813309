//! What is read of what was written.

ghost use Rattle.std.specs.Prelude.{◌≡◌, ◌++◌, ℕ, List, Result, IsOkAnd};
ghost use Rattle.certificates.specs.Certificate.{Certificate};
ghost use Rattle.certificates.specs.Layout.{certificate_grammar, certificate_file};
ghost use Rattle.certificates.specs.Telling.{IsCertificate, IsRead};
ghost use Rattle.certificates.specs.Written.{certificate_put, written};
ghost use Rattle.certificates.specs.declared.bytes.CertificateBytes.{CertificateBytes};

/// What the calls that write a certificate leave is its print, and sealed it is the certificate's file; and whatever
/// [`read_certificate`](crate::read_certificate) may answer to that file, it is this certificate.
pub fn what_is_written_is_read()
    ensures print { (out : List ℕ) (c : Certificate) → certificate_put out c ≡ out ++ certificate_grammar.print c }
    ensures file { (c : Certificate) → written c ≡ certificate_file c }
    ensures back { (c : Certificate) (result : Result CertificateBytes ℕ) → certificate_grammar.Fits c → IsRead (written c) result
        → IsOkAnd result (IsCertificate c) }
{}
