//! Requests and their reader.
#![tactic(auto)]

ghost use Rattle.std.specs.Prelude.{◌≡◌, ◌∷◌, None, IfOk, IfErr, IfSome, IsSome};
ghost use Rattle.sexpr_core.specs.Value.{plain, group, node};
ghost use Rattle.spki_tag.specs.{Faults.{IsNamed, request_fault}, Reading.{IsNoRequest, AreReadRequests, fault_of_requests}};
ghost use Rattle.spki_tag.specs.Request.{IsHead, IsRequest, request_value};
ghost use Rattle.spki_tag.specs.Request as spec;

use crate::fault::TagFault;
use crate::reader::head_of;
use sexpr_core::syntax::{Members, Node, NodeKind};
use sexpr_core::{Doc, NodeId};
use std::alloc::Global;
use std::marker::Model;

/// A request: one action that a client asks for. It is a string, or a list of a head that is not `*` and further requests, without display
/// hints (RFC 2693, section 6.3.1). It is ground: unlike a tag, it has no patterns. In a contract it is the `Request` of
/// `specs/Request.antt`.
#[cycle(ground)]
#[derive(Drop)]
pub struct Ground {
    /// The form of the request, with what it contains.
    pub(crate) node: GroundNode,
}

/// The form of a request: a string or a list.
#[cycle(ground)]
#[derive(Drop)]
pub(crate) enum GroundNode {
    /// A string.
    String(Vec<u8>),
    /// The head of a list, which is not `*`, and the requests after it.
    List(Vec<u8>, Vec<Ground>),
}

impl Model for Ground {
    ghost use Rattle.spki_tag.specs.{Request.{Request, IsRequest, request_size}, Inner.Codes.{request_code}};

    ghost Value = { Request };

    ghost coded = { request_code };

    ghost use Rattle.spki_tag.specs.Grounds.{ground_request};

    ghost view = { λ a. ground_request a.node };

    ghost invariant = { λ a. IsRequest (ground_request a.node) };

    ghost size = { request_size };

    ghost use Rattle.spki_tag.specs.GroundFalls.{deep_le-request_size};

    ghost size_decreases = { λ a h. deep_le-request_size a.node };
}

impl Ground {
    /// The request that is this string.
    pub(crate) fn string(octets: Vec<u8>) -> Ground
        ensures { result ≡ spec.string octets.items }
    {
        Ground {
            node: GroundNode::String(octets),
        }
    }

    /// The request that is a list of a head, which is not `*`, and further requests.
    pub(crate) fn list(head: Vec<u8>, further: Vec<Ground>) -> Ground
        requires head { spec.IsHead head.items }
        requires further { spec.AreRequests (spec.requests further.items) }
        ensures { result ≡ spec.list head.items (spec.requests further.items) }
    {
        Ground {
            node: GroundNode::List(head, further),
        }
    }
}

/// Reads a value as a request, for `Ground::of`, and for the members of lists. Err is the first fault, depth first from the left: `Hint`,
/// `EmptyList`, `ListHead` or `StarInRequest`; or `Memory`.
#[cycle(read_request)]
fn read_request(alloc: Global, value: &Node<'_, '_>) -> Result<Ground, TagFault>
    ensures request { IfOk result (λ g. IsRequest g) }
    ensures read { IfOk result (λ g. request_value g ≡ value.now) }
    ensures named { IfErr result (λ fault. IsNamed fault (request_fault value.now)) }
{
    match value.kind() {
        NodeKind::List(members) => read_request_list(alloc, members),
        NodeKind::String { hint: None, body } => Ok(Ground::string(Vec::from_slice(alloc, body)?)),
        NodeKind::String { hint: Some(_), .. } => Err(TagFault::Hint),
    }
}

/// Reads a list of these members, the head included, as a request. Err is `EmptyList` without members, `ListHead` or `Hint` for the head,
/// `StarInRequest` if the head is `*`, otherwise the first fault of a member after it, or `Memory`.
#[cycle(read_request)]
fn read_request_list(alloc: Global, members: Members<'_, '_>) -> Result<Ground, TagFault>
    ensures request { IfOk result (λ g. IsRequest g) }
    ensures read { IfOk result (λ g. request_value g ≡ group members.entry) }
    ensures named { IfErr result (λ fault. IsNamed fault (request_fault (group members.entry))) }
{
    match members.split_first() {
        None => Err(TagFault::EmptyList),
        Some((first, further)) => {
            let head = head_of(&first)?;
            if head == b"*".as_slice() {
                Err(TagFault::StarInRequest)
            } else {
                read_headed(alloc, head, further)
            }
        }
    }
}

/// Reads a list with this head, which is not `*`, and these members after it as a request. Err is the first fault of a member: `Hint`,
/// `EmptyList`, `ListHead` or `StarInRequest`; or `Memory`.
#[cycle(read_request)]
fn read_headed(alloc: Global, head: &[u8], further: Members<'_, '_>) -> Result<Ground, TagFault>
    requires { IsHead head.now }
    ensures request { IfOk result (λ g. IsRequest g) }
    ensures read { IfOk result (λ g. request_value g ≡ group (plain head.now ∷ further.entry)) }
    ensures named { IfErr result (λ fault. IsNamed fault (request_fault (group (plain head.now ∷ further.entry)))) }
{
    let members = read_request_members(alloc, further)?;
    let octets = Vec::from_slice(alloc, head)?;
    Ok(Ground::list(octets, members))
}

/// Reads each of the members of a list after its head as a request. Returns them in order. Err is the first fault of a member: `Hint`,
/// `EmptyList`, `ListHead` or `StarInRequest`; or `Memory`.
#[cycle(read_request)]
fn read_request_members(alloc: Global, members: Members<'_, '_>) -> Result<Vec<Ground>, TagFault>
    ensures read { IfOk result (λ gs. AreReadRequests members.entry gs.items) }
    ensures named { IfErr result (λ fault. IsNamed fault (fault_of_requests members.entry)) }
{
    let mut requests = Vec::with_capacity(alloc, members.len())?;
    let mut left = members;
    while let Some((first, further)) = left.split_first() {
        requests.push(read_request(alloc, &first)?)?;
        left = further;
    }
    Ok(requests)
}

impl Ground {
    /// Reads a node of a document as a request. The number of nodes is not limited.
    ///
    /// # Errors
    ///
    /// The first fault, depth first from the left. `Hint`: a string with a display hint. `EmptyList`: a list without
    /// members. `ListHead`: a list that begins with a list. `StarInRequest`: a list that begins with `*`. Or `Memory`:
    /// memory ran out.
    #[tactic(auto, using(crate::proofs::Faultless::result_refused, crate::proofs::RequestReading::result_faultless))]
    pub fn of(alloc: Global, value: &Node<'_, '_>) -> Result<Ground, TagFault>
        ensures request { IfOk result (λ g. IsRequest g) }
        ensures read { IfOk result (λ g. request_value g ≡ value.now) }
        ensures refused { IfErr result (λ fault. IsNoRequest fault value.now) }
        ensures named { IfErr result (λ fault. IsNamed fault (request_fault value.now)) }
        ensures faultless { IfOk result (λ g. request_fault value.now ≡ None) }
    {
        read_request(alloc, value)
    }

    /// Like `Ground::of`, for a caller that has the number `n` of a node and not the node. The document must have the node.
    ///
    /// # Errors
    ///
    /// The first fault, depth first from the left: `Hint`, `EmptyList`, `ListHead` or `StarInRequest`; or `Memory`.
    pub fn read(alloc: Global, document: &Doc<'_>, n: NodeId) -> Result<Ground, TagFault>
        requires { IsSome (node document.now n.0) }
        ensures request { IfOk result (λ g. IsRequest g) }
        ensures read { IfSome (node document.now n.0) (λ value. IfOk result (λ g. request_value g ≡ value)) }
        ensures refused { IfSome (node document.now n.0) (λ value. IfErr result (λ fault. IsNoRequest fault value)) }
        ensures named { IfSome (node document.now n.0) (λ value. IfErr result (λ fault. IsNamed fault (request_fault value))) }
        ensures faultless { IfSome (node document.now n.0) (λ value. IfOk result (λ g. request_fault value ≡ None)) }
    {
        Ground::of(alloc, &document.node(n).unwrap())
    }

    /// A fact for the prover, from the invariant of `Ground`: a request is always well-formed, however it was made. It does nothing at run
    /// time. A function whose proof needs the fact calls it.
    pub fn prove_well_formed(&self)
        ensures { spec.IsRequest self.now }
    {
        let _ = &self.node;
    }
}
