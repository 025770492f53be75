//! Laws of keys, hashes, dates, access lists and sequences.
//! Each function is a law: it does nothing, and its contract is the fact, which other proofs may use. A reading of a value is the key,
//! hash or other thing that it is read as. A fault of a value is the reason for which its reader refuses it.
#![tactic(auto, using(crate::proofs::LawRules::laws))]

ghost use Rattle.std.specs.Prelude.{◌≡◌, ◌↔◌, ◌⊎◌, ◌<◌, ◌≤◌, ◌*◌, ℕ, false, codes, length, List, Option, Some, None};
ghost use Rattle.spki_cert.specs.declared.{fault.{CertFaultKind.TheVariants.{Shape}, CertFault.{CertFault}}, hash.HashAlg.{HashAlg}};
ghost use Rattle.spki_cert.specs.declared.{principal.Principal.{Principal}, entry.{Entry.{Entry}, Subject.{Subject}}};
ghost use Rattle.spki_cert.specs.declared.certificate.{AuthCert.{AuthCert}, NameCert.{NameCert}, SeqItem.{SeqItem}, Signature.{Signature}};
ghost use Rattle.spki_cert.specs.Fields.{is_headed, PrincipalOf, WrittenSubjectOf, SubjectOf, IssuerOf, AreFields, IsLimitField, IsField, IsCertField};
ghost use Rattle.spki_cert.specs.FieldFaults.{key_fault, hash_fault, date_fault, principal_fault, subject_fault, entry_subject_fault, issuer_fault, fields_fault, limit_fault, entry_field_fault, cert_field_fault};
ghost use Rattle.spki_cert.specs.StructureFaults.{entry_fault, entries_fault, acl_fault, IsRefusedAt, signature_fault, do_fault, cert_fault, item_fault, sequence_fault};
ghost use Rattle.spki_cert.specs.{Readings.{KeyOf, HashOf, DateOf}, Cost.{entry_weight, items_weight}};
ghost use Rattle.spki_cert.specs.RefusedWholes.{HasRefusedEntry, IsNoListOfEntries, HasWrongItem};
ghost use Rattle.spki_cert.specs.Structures.{EntryOf, AclOf, AuthCertOf, NameCertOf, SignatureOf, DoHashOf, ItemOf, SeqOf};
ghost use Rattle.sexpr_core.specs.Value.{Value, canon};

/// A value has at most one reading as a key.
pub fn one_key()
    ensures { (v : Value) (k l : List ℕ) → KeyOf v k → KeyOf v l → k ≡ l }
{}

/// A value has at most one reading as a hash.
pub fn one_hash()
    ensures { (v : Value) (a b : HashAlg) (d e : List ℕ) → HashOf v a d → HashOf v b e → (a ≡ b) × (d ≡ e) }
{}

/// A value has at most one reading as a date.
pub fn one_date()
    ensures { (v : Value) (s t : List ℕ) → DateOf v s → DateOf v t → s ≡ t }
{}

/// A value has at most one reading as an entry.
pub fn one_entry()
    ensures { (v : Value) (e f : Entry) → EntryOf v e → EntryOf v f → e ≡ f }
{}

/// A value has at most one reading as an access list.
pub fn one_acl()
    ensures { (v : Value) (es fs : List Entry) → AclOf v es → AclOf v fs → es ≡ fs }
{}

/// A value has at most one reading as a sequence.
pub fn one_sequence()
    ensures { (v : Value) (is js : List SeqItem) → SeqOf v is → SeqOf v js → is ≡ js }
{}

/// A value has no fault as a key, a hash or a date exactly if it is one.
pub fn no_fault()
    ensures key { (v : Value) → (key_fault v ≡ None) ↔ ((octets : List ℕ) × KeyOf v octets) }
    ensures hash { (v : Value) → (hash_fault v ≡ None) ↔ ((alg : HashAlg) × (digest : List ℕ) × HashOf v alg digest) }
    ensures date { (v : Value) → (date_fault v ≡ None) ↔ ((octets : List ℕ) × DateOf v octets) }
{}

/// A value has no fault as a principal, a subject or an issuer exactly if it is one. `subject` is about the subject of a certificate, as it
/// is written, and `of_entry` about that of an entry, which is no relative name.
pub fn no_subject_fault()
    ensures principal { (v : Value) → (principal_fault v ≡ None) ↔ ((p : Principal) × PrincipalOf v p) }
    ensures subject { (v : Value) → (subject_fault v ≡ None) ↔ ((p : Option Principal) × (names : List (List ℕ)) × WrittenSubjectOf v p names) }
    ensures of_entry { (v : Value) → (entry_subject_fault v ≡ None) ↔ ((s : Subject) × SubjectOf v s) }
    ensures issuer { (v : Value) → (issuer_fault v ≡ None) ↔ ((p : Principal) × (name : Option (List ℕ)) × IssuerOf v p name) }
{}

/// A list of limits in `(valid ..)` has no fault exactly if all are limits, each at most once. The same holds for the
/// fields of an entry, and for those of a certificate.
pub fn no_field_fault()
    ensures limits { (vs : List Value) → (fields_fault limit_fault vs ≡ None) ↔ AreFields IsLimitField vs }
    ensures of_entry { (vs : List Value) → (fields_fault entry_field_fault vs ≡ None) ↔ AreFields IsField vs }
    ensures of_certificate { (vs : List Value) → (fields_fault cert_field_fault vs ≡ None) ↔ AreFields IsCertField vs }
{}

/// A value has no fault as an entry or as an access list exactly if it is one.
pub fn no_entry_fault()
    ensures entry { (v : Value) → (entry_fault v ≡ None) ↔ ((e : Entry) × EntryOf v e) }
    ensures acl { (v : Value) → (acl_fault v ≡ None) ↔ ((es : List Entry) × AclOf v es) }
{}

/// A value has no fault as a signature, an operation, a certificate, an item or a sequence exactly if it is one.
pub fn no_sequence_fault()
    ensures signature { (v : Value) → (signature_fault v ≡ None) ↔ ((s : Signature) × SignatureOf v s) }
    ensures operation { (v : Value) → (do_fault v ≡ None) ↔ ((alg : HashAlg) × DoHashOf v alg) }
    ensures certificate { (v : Value) → (cert_fault v ≡ None) ↔ (((c : AuthCert) × AuthCertOf v c) ⊎ ((c : NameCert) × NameCertOf v c)) }
    ensures item { (v : Value) → (item_fault v ≡ None) ↔ ((item : SeqItem) × ItemOf v item) }
    ensures sequence { (v : Value) → (sequence_fault v ≡ None) ↔ ((is : List SeqItem) × SeqOf v is) }
{}

/// If the entries of an access list have a fault, it has the number of the first entry that cannot be read, from 1, and the fault of that
/// entry. All entries before it can be read. `refused_list` says this of the whole list, with its head and version.
pub fn refused_entry()
    ensures { (vs : List Value) (fault : CertFault) → entries_fault vs ≡ Some fault
        → (v : Value) × IsRefusedAt EntryOf vs fault.item v × (entry_fault v ≡ Some fault.kind) }
{}

/// If a value has a fault as an access list, the item of the fault says what is wrong. With an item above 0 the value is an access list up
/// to the entry with this number, the first that cannot be read, and the fault is that of this entry. With item 0 the value does not have
/// the head `acl`, or its first member has the head `version` and is not `(version 0)`.
#[tactic(auto, using(crate::proofs::RefusedWholes::wholes))]
pub fn refused_list()
    ensures entry { (v : Value) (fault : CertFault) → acl_fault v ≡ Some fault → 0 < fault.item → HasRefusedEntry v fault }
    ensures outer { (v : Value) (fault : CertFault) → acl_fault v ≡ Some fault → fault.item ≡ 0 → IsNoListOfEntries v fault }
{}

/// If a value has a fault as a sequence, the item of the fault says what is wrong. With an item above 0 the members before the one with this
/// number are items in their places. This member cannot be read, and the fault is its own; or it is a signature without a certificate, or a
/// certificate without its signature. With item 0 the value does not have the head `sequence`.
#[tactic(auto, using(crate::proofs::RefusedWholes::wholes))]
pub fn refused_sequence()
    ensures item { (v : Value) (fault : CertFault) → sequence_fault v ≡ Some fault → 0 < fault.item → HasWrongItem v fault }
    ensures outer { (v : Value) (fault : CertFault) → sequence_fault v ≡ Some fault → fault.item ≡ 0
        → (is_headed (codes "sequence") v ≡ false) × (fault.kind ≡ Shape) }
{}

/// The weight of an entry bounds how much is read to test it: it counts one for the entry, the names of its subject, their octets and those
/// of the principal, and the tags in its tag and their octets. This weight is below the number of octets of the entry's canonical text. The
/// weight of a sequence bounds the same for its certificates, with four for each in place of one. It is at most four times the number of
/// octets of the sequence's canonical text. It may be more than this number itself, because a relative name counts its issuer's principal
/// again.
pub fn weights()
    ensures entry { (v : Value) (e : Entry) → EntryOf v e → entry_weight e < length (canon v) }
    ensures sequence { (v : Value) (is : List SeqItem) → SeqOf v is → items_weight is ≤ 4 * length (canon v) }
{}
