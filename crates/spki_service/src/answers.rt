//! The answers to a question that a guard has read: grants, decisions, explanations and reductions, by a verifier or by marks.
//! The four tests of a certificate (`Stop`): the issuer's key is known, the signature has the certificate's digest, its signer names this key, and
//! the verifier accepts it or, for an answer by marks, it is marked.

ghost use Rattle.std.specs.Prelude.{◌≡◌, List, map, IfOk, IsErrOf, option_copied};
ghost use Rattle.spki_reduce.specs.Chain.{tuples_of};
ghost use Rattle.spki_decision.specs.{CertificateTests.{asked, every, signed_of}, Answered.{IsExplained, IsReduced}};
ghost use Rattle.spki_decision.specs.{declared.reduction.EntryFold.{EntryFold}, Granted.{EndAtDates, SomeTooLarge}, Requirements.{first_key}};
ghost use Rattle.spki_service.specs.GuardQuestions.{Answers, OfCase, Decides, Grants, AreReduced, ByMarks, IsPossible, DecidesMarked, GrantsMarked, ExplainsMarked, ReducesMarked, AreReducedMarked};

use crate::failure::Failure;
use crate::prepared_question::PreparedQuestion;
use crate::text_folds::fold_texts;
use spki_case::Verifier;
use spki_cert::Key;
use spki_decision::{
    Decision, Explanation, FoldSink, Grant, GuardFault, Reduction, Signed, Stop, Unverified,
    first_refused,
};
use spki_reduce::{Issuer, Step};
use std::alloc::{AllocError, Global};
use std::marker::Brand;
use std::sync::ledger::Blank;

impl<'a> PreparedQuestion<'a> {
    /// The signatures that a verifier is asked about, in order (RFC 2693, section 6). They are those of the certificates before the first that
    /// fails a test that needs no verifier: the first three tests of `Stop`, of the issuer's key, the digest and the signer. Nothing is copied.
    pub fn signed(&self) -> &[Signed<'a>]
        ensures { map signed_of result.now ≡ asked self.now.case }
    {
        &self.examined.signed
    }

    /// What the question is granted: the entry that `decide` names, and until when the yes holds. None if the decision is no.
    ///
    /// The yes holds until the least not-after of the windows of that entry and of all certificates, definitions of names too: at each later
    /// moment up to this limit the same question is a yes, if the verifier accepts the same signatures.
    ///
    /// # Errors
    ///
    /// `AllocError` if memory ran out, here or in the verifier.
    pub fn grant<V: Verifier>(
        &self,
        alloc: Global,
        verifier: &V,
    ) -> Result<Option<Grant>, AllocError>
        ensures { IfOk result (Grants (V.accepted verifier.now) self.now) }
    {
        match first_refused(alloc, &self.examined.signed, verifier)? {
            None => self.granted(alloc),
            Some(_) => Ok(None),
        }
    }

    /// Decides the question (RFC 2693, section 6). The answer is yes exactly if both of these hold. Every certificate
    /// passes the four tests of `Stop`, of which the last is that the verifier accepts its signature. An entry
    /// and all certificates, in their order, reduce to an authorization that grants the request. The first such entry
    /// is named. Otherwise the answer is no.
    ///
    /// Only entries whose principal names the first issuer's key are examined, or the client's key if no certificate is shown.
    /// No intersection is formed: the request is looked for in each tag. So no tag is too large, and the time is in proportion
    /// to the octets of the question and of these entries, except for the binary searches that find them.
    ///
    /// # Errors
    ///
    /// `AllocError` if memory ran out, here or in the verifier.
    pub fn decide<V: Verifier>(&self, alloc: Global, verifier: &V) -> Result<Decision, AllocError>
        ensures { IfOk result (Decides (V.accepted verifier.now) self.now) }
    {
        Ok(Grant::decision(self.grant(alloc, verifier)?))
    }

    /// What the question is granted, as by `grant`, if exactly the marked signatures are valid. None if the decision is no: so also if a
    /// listed signature has no mark at its index.
    ///
    /// # Errors
    ///
    /// `AllocError` if memory ran out.
    pub fn grant_by(&self, alloc: Global) -> Result<Option<Grant>, AllocError>
        ensures { IfOk result (GrantsMarked self.now) }
    {
        // `Brand` and `Blank` are for a count of operations (ticks), which only contracts see and which costs no time: see `spki_tag::Ticks`.
        self.grant_by_with_new_count::<Brand>(alloc, Blank::new(1))
    }

    /// Decides the question, if exactly the marked signatures are valid. So the answer is no unless each signature that `signed` lists
    /// has a mark at its index.
    ///
    /// # Errors
    ///
    /// `AllocError` if memory ran out.
    pub fn decide_by(&self, alloc: Global) -> Result<Decision, AllocError>
        ensures { IfOk result (DecidesMarked self.now) }
    {
        match self.grant_by(alloc) {
            Ok(grant) => Ok(Grant::decision(grant)),
            Err(fault) => Err(fault),
        }
    }

    /// Whether the question is granted if all listed signatures are valid. If it is not, no marks make it a yes, and no signature has to be
    /// verified. So a service calls this before it verifies signatures. True is not yet a yes.
    ///
    /// # Errors
    ///
    /// `AllocError` if memory ran out.
    pub fn is_possible(&self, alloc: Global) -> Result<bool, AllocError>
        ensures { IfOk result (IsPossible self.now) }
    {
        match self.granted(alloc) {
            Ok(grant) => Ok(grant.is_some()),
            Err(fault) => Err(fault),
        }
    }

    /// What is granted if all listed signatures are valid; the marks are not looked at. None if a certificate fails one of the other tests
    /// of `Stop`, or if no entry grants the request. Err if memory ran out.
    pub(crate) fn granted(&self, alloc: Global) -> Result<Option<Grant>, AllocError>
        ensures { IfOk result (Grants every self.now) }
    {
        // `Brand` and `Blank` are for a count of operations (ticks), which only contracts see and which costs no time: see `spki_tag::Ticks`.
        self.granted_with_new_count::<Brand>(alloc, Blank::new(1))
    }

    /// Explains the question, as `spki_decision::explain` explains the case of the question's parts and the guard's
    /// list. If every certificate passes the four tests of `Stop`, of which the verifier does the last, the answer is
    /// for each entry why it grants the request or does not: all entries are read, not only those that a decision
    /// looks up. Otherwise it is the first certificate that fails one, and no entry is read.
    ///
    /// # Errors
    ///
    /// `TooLarge` if the product of the nodes of two tags to be intersected is over the guard's limit `nodes`, or the work of all entries together
    /// over its limit `work`. `Memory` if memory ran out, here or in the verifier, or if a tag or a list of names has too many owners to count.
    pub fn explain<V: Verifier>(
        &self,
        alloc: Global,
        verifier: &V,
    ) -> Result<Explanation, GuardFault>
        ensures { Answers (λ c answer. IsExplained c (V.accepted verifier.now) answer) self.now result }
    {
        match first_refused(alloc, &self.examined.signed, verifier)? {
            // `Brand` and `Blank` are for a count of operations (ticks), which only contracts see and which costs no time: see `spki_tag::Ticks`.
            None => self.explained_with_new_count::<Brand>(alloc, Blank::new(1)),
            Some(index) => Ok(Explanation::Evidence {
                item: self.examined.signed[index].item,
                stop: Stop::NotAccepted,
            }),
        }
    }

    /// Explains the question, as `explain`, if exactly the marked signatures are valid. A certificate whose listed signature has no mark
    /// fails the last test of `Stop`.
    ///
    /// # Errors
    ///
    /// `TooLarge` if the product of the nodes of two tags to be intersected is over the guard's limit `nodes`, or the work of all
    /// entries together over its limit `work`. `Memory` if memory ran out, or if a tag or a list of names has too many owners to count.
    pub fn explain_by(&self, alloc: Global) -> Result<Explanation, GuardFault>
        ensures { ExplainsMarked self.now result }
    {
        // `Brand` and `Blank` are for a count of operations (ticks), which only contracts see and which costs no time: see `spki_tag::Ticks`.
        self.explain_by_with_new_count::<Brand>(alloc, Blank::new(1))
    }

    /// Reduces the question, as `spki_decision::reduce_case` reduces the case of the question's parts and the guard's
    /// list. If every certificate passes the four tests of `Stop`, of which the verifier does the last, the answer is
    /// for each entry what it becomes with all certificates: all entries are read, not only those that a decision
    /// looks up. Otherwise it is the first certificate that fails one, and no entry is read.
    ///
    /// # Errors
    ///
    /// `TooLarge` if the product of the nodes of two tags to be intersected is over the guard's limit `nodes`, or the work of all entries together
    /// over its limit `work`. `Memory` if memory ran out, here or in the verifier, or if a tag or a list of names has too many owners to count.
    pub fn reduce<V: Verifier>(
        &self,
        alloc: Global,
        verifier: &V,
    ) -> Result<Reduction<'a>, GuardFault>
        ensures reduced { Answers (λ c answer. IsReduced c (V.accepted verifier.now) answer) self.now result }
        ensures end { IfOk result EndAtDates }
    {
        match first_refused(alloc, &self.examined.signed, verifier)? {
            // `Brand` and `Blank` are for a count of operations (ticks), which only contracts see and which costs no time: see `spki_tag::Ticks`.
            None => self.reduced_with_new_count::<Brand>(alloc, Blank::new(1)),
            Some(index) => Ok(Reduction::Evidence {
                item: self.examined.signed[index].item,
                stop: Stop::NotAccepted,
            }),
        }
    }

    /// Reduces the question, as `reduce`, if exactly the marked signatures are valid. A certificate whose listed signature has no mark
    /// fails the last test of `Stop`.
    ///
    /// # Errors
    ///
    /// `TooLarge` if the product of the nodes of two tags to be intersected is over the guard's limit `nodes`, or the work of all
    /// entries together over its limit `work`. `Memory` if memory ran out, or if a tag or a list of names has too many owners to count.
    pub fn reduce_by(&self, alloc: Global) -> Result<Reduction<'a>, GuardFault>
        ensures reduced { ReducesMarked self.now result }
        ensures end { IfOk result EndAtDates }
    {
        // `Brand` and `Blank` are for a count of operations (ticks), which only contracts see and which costs no time: see `spki_tag::Ticks`.
        self.reduce_by_with_new_count::<Brand>(alloc, Blank::new(1))
    }

    /// Reduces the question as `reduce_by` does, and puts what each entry becomes into `sink` as soon as it is known. So only one entry, and
    /// what it becomes, takes memory at a time. If a certificate fails a test, returns the first that does, and puts nothing. Returns None if
    /// all certificates pass. A certificate whose listed signature has no mark fails the last test.
    ///
    /// # Errors
    ///
    /// `TooLarge` if the product of the nodes of two tags to be intersected is over the guard's limit `nodes`, or the work of all
    /// entries together over its limit `work`. `Memory` if memory ran out, here or in the sink, or if a tag or a list of names has too many owners
    /// to count. After an error, drop what `sink` has taken: nothing is promised of it.
    pub fn reduce_into<S: FoldSink<'a>>(
        &self,
        alloc: Global,
        sink: &mut S,
    ) -> Result<Option<Failure>, GuardFault>
        ensures folds { IfOk result (λ failure. (folds : List EntryFold) × S.takes sink.old folds sink.new
            × AreReducedMarked self.now failure folds) }
        ensures too_large { IsErrOf result GuardFault.TooLarge →
            ByMarks self.now (OfCase self.now (λ c. SomeTooLarge c every)) (λ one. ⊥) }
    {
        match self.unmarked() {
            None => self.put_folds(alloc, sink),
            Some(one) => Ok(Some(Failure {
                item: one.item,
                stop: Stop::NotAccepted,
            })),
        }
    }

    /// Puts what each entry becomes into `sink`, on the assumption that all listed signatures are valid: `reduce_into` tests the marks before. If
    /// a certificate fails another test, returns the first that does, and puts nothing. Returns None if all certificates pass. Err is `TooLarge` or `Memory`, as for `reduce_into`; then drop what
    /// `sink` has taken.
    fn put_folds<S: FoldSink<'a>>(
        &self,
        alloc: Global,
        sink: &mut S,
    ) -> Result<Option<Failure>, GuardFault>
        ensures folds { IfOk result (λ failure. (folds : List EntryFold) × S.takes sink.old folds sink.new
            × AreReduced self.now every failure folds) }
        ensures too_large { IsErrOf result GuardFault.TooLarge → OfCase self.now (λ c. SomeTooLarge c every) }
    {
        match &self.examined.unverified {
            Unverified::Fails { item, stop } => Ok(Some(Failure {
                item: *item,
                stop: *stop,
            })),
            Unverified::Passes(steps) => {
                let guard = self.guard;
                fold_texts(alloc, &guard.texts, &self.case, steps, sink)?;
                Ok(None)
            }
        }
    }
}

/// The key that the principal of an entry must name, so that the entry can grant the request: the issuer's key of the first certificate,
/// whose tuple is `steps[0]`, or the client's key `asker` if there is no certificate. None if that tuple is from the owner of the access
/// list (`Issuer::Own`), as that of a certificate never is.
pub(crate) fn first_key<'s, 'a>(asker: &'s Key<'a>, steps: &'s [Step<'a>]) -> Option<&'s Key<'a>>
    ensures { option_copied result ≡ first_key asker.entry.now (tuples_of steps.entry.now) }
{
    match steps.first() {
        None => Some(asker),
        Some(Step::Name(definition)) => Some(&definition.key),
        Some(Step::Auth(five)) => match &five.issuer {
            Issuer::Own => None,
            Issuer::Key(key) => Some(key),
        },
    }
}
