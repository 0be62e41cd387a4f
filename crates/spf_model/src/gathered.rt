//! What a term that asks for hosts gathered, and what that says of an address (RFC 7208, sections 5.3 to 5.7).
ghost use Rattle.std.specs.Prelude.{◌≡◌, ◌≤◌};
ghost use Rattle.std.specs.List.{list_any};
ghost use Rattle.zone_answers.specs.Answers.{answer_bodies};
ghost use Rattle.spf_model.specs.Judging as judging;
ghost use Rattle.spf_model.specs.Leads.{MechanismFits};

use addr_bits::{Address, Family, Items, Prefix};
use dns_name::Name;
use master_reader::Body;
use spf_grammar::Mechanism;
use zone_answers::Answer;

/// How many first bits must agree (RFC 7208, section 5.6).
#[derive(Clone, Copy)]
pub struct Lens {
    /// For IPv4: 0 to 32.
    pub len4: u32,
    /// For IPv6: 0 to 128.
    pub len6: u32,
}

impl Lens {
    /// How many first bits of the addresses of a family must agree.
    pub fn of(self, family: Family) -> u32
        ensures { result ≡ judging.len_in family self.len4 self.len6 }
    {
        match family {
            Family::V4 => self.len4,
            Family::V6 => self.len6,
        }
    }
}

/// What a term that asks for hosts gathers before it is judged.
#[derive(Drop)]
pub struct Gathered {
    /// Whether the answer that named the hosts was void.
    pub void: bool,
    /// The answers of the hosts, in order.
    pub answers: Items<Answer>,
}

/// What a term that asks for hosts gathers for every address of a family alike.
#[derive(Drop)]
pub enum Hosts {
    /// All answers: what every address gathers.
    Common(Gathered),
    /// The name below which each address asks at its reversed name (RFC 7208, section 5.7).
    Reversed(Name),
}

/// Whether there is no such name or no such record (RFC 7208, section 4.6.4).
pub(crate) fn is_void(answer: &Answer) -> bool
    ensures { result ≡ judging.is_void answer.now }
{
    matches!(answer, Answer::NoName | Answer::NoData)
}

/// Whether one of the answers was void (RFC 7208, section 4.6.4).
fn any_void(answers: &[Answer]) -> bool
    ensures { result ≡ list_any judging.is_void answers.now }
{
    answers.iter().any(is_void)
}

/// Whether something was found (RFC 7208, section 5.7).
fn is_found(answer: &Answer) -> bool
    ensures { result ≡ judging.is_found answer.now }
{
    matches!(answer, Answer::Found(_))
}

/// Whether the address agrees with the record's in the first bits.
fn body_agrees(lens: Lens, address: Address, body: &Body) -> bool
    requires len4 { lens.len4 ≤ 32 }
    requires len6 { lens.len6 ≤ 128 }
    ensures { result ≡ judging.body_agrees lens.len4 lens.len6 address body.now }
{
    match (address, body) {
        (Address::V4(a), Body::A(n)) => Prefix::new(*n, lens.len4).covers(a),
        (Address::V6(a), Body::Aaaa(n)) => Prefix::new(*n, lens.len6).covers(a),
        _ => false,
    }
}

/// Whether one of the addresses that were found agrees.
fn answer_agrees(lens: Lens, address: Address, answer: &Answer) -> bool
    requires len4 { lens.len4 ≤ 32 }
    requires len6 { lens.len6 ≤ 128 }
    ensures { result ≡ list_any (judging.body_agrees lens.len4 lens.len6 address) (answer_bodies answer.now) }
{
    answer
        .bodies()
        .iter()
        .any(|body| body_agrees(lens, address, body))
}

impl Gathered {
    /// Whether some answer of the term was void (RFC 7208, section 4.6.4).
    pub fn some_void(&self) -> bool
        ensures { result ≡ judging.some_void self.now }
    {
        self.void || any_void(self.answers.as_slice())
    }

    /// Whether something was found at a host (RFC 7208, section 5.7).
    pub fn some_found(&self) -> bool
        ensures { result ≡ list_any judging.is_found self.now.answers }
    {
        self.answers.as_slice().iter().any(is_found)
    }

    /// Whether a mechanism matches an address by the answers of its hosts (RFC 7208, sections 5.3, 5.4 and 5.7).
    pub(crate) fn meets(&self, mechanism: &Mechanism, address: Address) -> bool
        requires { MechanismFits mechanism.now }
        ensures { result ≡ judging.is_met mechanism.now address self.now.answers }
    {
        match mechanism {
            Mechanism::A(_, len4, len6) | Mechanism::Mx(_, len4, len6) => {
                let lens = Lens {
                    len4: *len4,
                    len6: *len6,
                };
                self.some_agrees(lens, address)
            }
            Mechanism::Exists(_) => self.some_found(),
            _ => false,
        }
    }

    /// Whether one of the addresses that were found agrees.
    fn some_agrees(&self, lens: Lens, address: Address) -> bool
        requires len4 { lens.len4 ≤ 32 }
        requires len6 { lens.len6 ≤ 128 }
        ensures { result ≡ judging.some_agrees lens.len4 lens.len6 address self.now.answers }
    {
        self.answers
            .as_slice()
            .iter()
            .any(|answer| answer_agrees(lens, address, answer))
    }
}
