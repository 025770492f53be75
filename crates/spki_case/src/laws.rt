//! Laws of cases and accepted lists.
//! Each function is a law: it does nothing, and its contract is the fact. A reading of a value is the row, list or case that it is read as.

ghost use Rattle.std.specs.{Prelude.{◌≡◌, ◌↔◌, ℕ, List, Some, None}, List.{AllZip}};
ghost use Rattle.sexpr_core.specs.Value.{HasOctets, Value};
ghost use Rattle.spki_tag.specs.Faults.{request_fault};
ghost use Rattle.spki_cert.specs.{FieldFaults.{key_fault, date_fault}, StructureFaults.{acl_fault, sequence_fault, IsRefusedAt}};
ghost use Rattle.spki_cert.specs.declared.fault.CertFault.{CertFault};
ghost use Rattle.spki_case.specs.Case.{Case, Row, Parts, acl_value, sequence_value, case_value, CaseOf, ValueRefused, IsCaseText, TextRefused, RowOf, row_fault, rows_fault};
ghost use Rattle.spki_case.specs.{RowsForm.{NoRows, IsRowsText, RowsTextRefused}, declared.{cases.CaseFault.{CaseFault}, rows.RowsFault.{RowsFault}}};

/// A value has at most one reading as a row of an accepted list.
pub fn one_row()
    ensures { (v : Value) (r s : Row) → RowOf v r → RowOf v s → r ≡ s }
{}

/// A text has at most one reading as an accepted list.
pub fn one_list()
    ensures { (text : List ℕ) (rows others : List Row) → IsRowsText text rows → IsRowsText text others → rows ≡ others }
{}

/// A text that is read as a case is not refused as a case, for any fault. The same holds for an accepted list.
pub fn no_refusal()
    ensures case { (text : List ℕ) (c : Case) (fault : CaseFault) → IsCaseText text c → ¬ TextRefused text fault }
    ensures rows { (text : List ℕ) (rows : List Row) (fault : RowsFault) → IsRowsText text rows → ¬ RowsTextRefused text fault }
{}

/// A value, or a text, has at most one reading as a case.
pub fn one_case()
    ensures value { (v : Value) (c d : Case) → CaseOf v c → CaseOf v d → c ≡ d }
    ensures text { (text : List ℕ) (c d : Case) → IsCaseText text c → IsCaseText text d → c ≡ d }
{}

/// A value that is refused as a case, or as an accepted list, is refused for one fault only: two faults for which it is refused have the
/// same part, item and kind.
pub fn one_fault()
    ensures case { (v : Value) (f g : CaseFault) → ValueRefused v f → ValueRefused v g → f ≡ g }
    ensures rows { (v : Value) (f g : RowsFault) → NoRows v f → NoRows v g → f ≡ g }
{}

/// A value has no fault as a row of an accepted list exactly if it has a reading as one. The same holds for a list of values as the rows,
/// and for the parts of a case if the octets of its request are below 256, as they are in every text. In definitions an octet is any natural
/// number: a larger one is no fault, but no request has it.
pub fn no_case_fault()
    ensures row { (v : Value) → (row_fault v ≡ None) ↔ ((row : Row) × RowOf v row) }
    ensures rows { (vs : List Value) → (rows_fault vs ≡ None) ↔ ((rows : List Row) × AllZip RowOf vs rows) }
    ensures parts { (p : Parts) → HasOctets p.request
        → ((acl_fault (acl_value p) ≡ None) × (rows_fault p.rows ≡ None) × (sequence_fault (sequence_value p) ≡ None)
        × (key_fault p.key ≡ None) × (request_fault p.request ≡ None) × (date_fault p.at ≡ None))
        ↔ ((c : Case) × CaseOf (case_value p) c) }
{}

/// If the rows of an accepted list have a fault, it has the number of the first row that cannot be read, from 1, and the fault
/// of that row. All rows before it can be read.
pub fn refused_row()
    ensures { (vs : List Value) (fault : CertFault) → rows_fault vs ≡ Some fault
        → (v : Value) × IsRefusedAt RowOf vs fault.item v × (row_fault v ≡ Some fault.kind) }
{}
