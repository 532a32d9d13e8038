// What the keys of the command line set.
ghost use Rattle.std.specs.Prelude.{◌≡◌, ◌≤◌, ◌<◌, ◌^◌, ◌≢◌, ℕ, map, string_bytes, None, Some, IfSome, IfNone, IsSome, IsTrue, ◌↔◌};
ghost use Rattle.std.specs.Fmt.{decimal};
ghost use Rattle.sk_close_by_order.specs.declared.Order.{Order as AnyOrder};
ghost use Rattle.sk_place.specs.declared.FrameBy.{FrameBy as AnyFrame};
ghost use Rattle.sk_place.specs.declared.PlaceBy.{PlaceBy as AnyPlace};
ghost use Rattle.sk_request.specs.declared.bits.Bits.{Bits as AnyBits};
ghost use Rattle.sk_request.specs.declared.request.Request.{Request as AnyRequest};
ghost use Rattle.sk_request.specs.declared.settings.Settings.{Settings as OtherSettings};
ghost use Rattle.sk_request.specs.Asking.{behind, HasKeys, IsNumber, IsOrder, IsBits, IsLimit, IsPlace, IsFrame, IsSize, LeadsWithZero};
ghost use Rattle.sk_request.specs.Commands.{command_word};
ghost use Rattle.sk_request.specs.Settings.{AreSet, Adds};

use crate::bits::Bits;
use crate::command::Command;
use sk_base::digits_of;
use sk_close_by_order::Order;
use sk_place::{FrameBy, PlaceBy};

const MOST_STRIDE: u64 = 65_535;

const MOST_LIMIT: u64 = 1_000_000;

const LEAST_SIZE: u64 = 3;

const MOST_SIZE: u64 = 1_000;

/// What the keys say that were read, each where it stands.
#[derive(Clone, Copy, Debug, PartialEq, Eq)]
pub(crate) struct Settings {
    pub(crate) order: Option<Order>,
    pub(crate) bits: Option<Bits>,
    pub(crate) within: Option<u64>,
    pub(crate) place: Option<PlaceBy>,
    pub(crate) frame: Option<FrameBy>,
    pub(crate) size: Option<u32>,
}

/// What the words set, if they are keys of the command and none stands twice.
pub(crate) fn settings_of(command: Command, words: &[String]) -> Option<Settings>
    ensures some { IfSome result (AreSet command (map string_bytes words.now)) }
    ensures none { IfNone result ((request : AnyRequest) → command_word request.command ≡ command_word command → HasKeys (map string_bytes words.now) request → ⊥) }
{
    let mut settings = Settings {
        order: None,
        bits: None,
        within: None,
        place: None,
        frame: None,
        size: None,
    };
    for word in words {
        settings = settings.with(command, word.as_str())?;
    }
    Some(settings)
}

impl Settings {
    /// The settings with what the word says.
    fn with(self, command: Command, word: &str) -> Option<Settings>
        ensures some { IfSome result (Adds command word.now self) }
        ensures none { IfNone result ((after : OtherSettings) → Adds command word.now self after → ⊥) }
    {
        if let Some(value) = behind(word, "order=") {
            if !command.orders() {
                return None;
            }
            let order = filled(self.order, order_named(value))?;
            return Some(Settings { order, ..self });
        }
        if let Some(value) = behind(word, "n=") {
            if !command.makes() {
                return None;
            }
            let size = filled(self.size, size_of(value))?;
            return Some(Settings { size, ..self });
        }
        if let Some(value) = behind(word, "within=") {
            if !command.limits() {
                return None;
            }
            let within = filled(self.within, limit_of(value))?;
            return Some(Settings { within, ..self });
        }
        if !command.places() {
            return None;
        }
        if let Some(value) = behind(word, "bits=") {
            let bits = filled(self.bits, bits_named(value))?;
            return Some(Settings { bits, ..self });
        }
        if let Some(value) = behind(word, "place=") {
            let place = filled(self.place, place_named(value))?;
            return Some(Settings { place, ..self });
        }
        let frame = filled(self.frame, frame_named(behind(word, "frame=")?))?;
        Some(Settings { frame, ..self })
    }
}

/// The slot with what was read. None where something stands in it already, or nothing was read.
fn filled<T: Copy>(slot: Option<T>, read: Option<T>) -> Option<Option<T>>
    ensures some { IfSome result (λ after. (slot ≡ None) × IsSome read × (after ≡ read)) }
    ensures none { IfNone result (slot ≡ None → read ≡ None) }
{
    match slot {
        None => Some(Some(read?)),
        Some(_) => None,
    }
}

/// What stands behind the name that the word begins with.
fn behind<'a>(word: &'a str, name: &str) -> Option<&'a [u8]>
    ensures some { IfSome result (λ value. behind name.now word.now ≡ Some value.now) }
    ensures none { IfNone result (behind name.now word.now ≡ None) }
{
    word.as_bytes().strip_prefix(name.as_bytes())
}

fn order_named(value: &[u8]) -> Option<Order>
    ensures some { IfSome result (IsOrder value.now) }
    ensures none { IfNone result ((order : AnyOrder) → IsOrder value.now order → ⊥) }
{
    if value == b"first".as_slice() {
        Some(Order::First)
    } else if value == b"last".as_slice() {
        Some(Order::Last)
    } else {
        Some(Order::Stride(stride_of(value)?))
    }
}

fn bits_named(value: &[u8]) -> Option<Bits>
    ensures some { IfSome result (IsBits value.now) }
    ensures none { IfNone result ((bits : AnyBits) → IsBits value.now bits → ⊥) }
{
    if value == b"16".as_slice() {
        Some(Bits::Sixteen)
    } else if value == b"27".as_slice() {
        Some(Bits::TwentySeven)
    } else if value == b"38".as_slice() {
        Some(Bits::ThirtyEight)
    } else {
        None
    }
}

fn place_named(value: &[u8]) -> Option<PlaceBy>
    ensures some { IfSome result (IsPlace value.now) }
    ensures none { IfNone result ((place : AnyPlace) → IsPlace value.now place → ⊥) }
{
    if value == b"boxes".as_slice() {
        Some(PlaceBy::Boxes)
    } else if value == b"points".as_slice() {
        Some(PlaceBy::Points)
    } else {
        None
    }
}

fn frame_named(value: &[u8]) -> Option<FrameBy>
    ensures some { IfSome result (IsFrame value.now) }
    ensures none { IfNone result ((frame : AnyFrame) → IsFrame value.now frame → ⊥) }
{
    if value == b"base".as_slice() {
        Some(FrameBy::Base)
    } else if value == b"drawn".as_slice() {
        Some(FrameBy::Drawn)
    } else {
        None
    }
}

fn stride_of(value: &[u8]) -> Option<u16>
    ensures some { IfSome result (IsNumber 0 65535 value.now) }
    ensures none { IfNone result ((stride : ℕ) → IsNumber 0 65535 value.now stride → ⊥) }
{
    Some(number_between(0, MOST_STRIDE, value)? as u16)
}

fn limit_of(value: &[u8]) -> Option<u64>
    ensures some { IfSome result (IsLimit value.now) }
    ensures none { IfNone result ((limit : ℕ) → IsLimit value.now limit → ⊥) }
{
    number_between(1, MOST_LIMIT, value)
}

fn size_of(value: &[u8]) -> Option<u32>
    ensures some { IfSome result (IsSize value.now) }
    ensures none { IfNone result ((size : ℕ) → IsSize value.now size → ⊥) }
{
    Some(number_between(LEAST_SIZE, MOST_SIZE, value)? as u32)
}

/// The number from `least` to `most` that digits spell, without a leading zero.
fn number_between(least: u64, most: u64, value: &[u8]) -> Option<u64>
    requires { most < 10000000 }
    ensures some { IfSome result (IsNumber least most value.now) }
    ensures none { IfNone result ((number : ℕ) → IsNumber least most value.now number → ⊥) }
{
    match number_of(7, value) {
        Some(number) if number >= least && number <= most => Some(number),
        _ => None,
    }
}

/// The number that one to `most` digits spell, without a leading zero.
fn number_of(most: usize, value: &[u8]) -> Option<u64>
    requires some { 1 ≤ most }
    requires few { most ≤ 18 }
    requires small { 10 ^ most ≤ 2 ^ 64 }
    ensures some { IfSome result (λ number. value.now ≡ decimal number) }
    ensures below { IfSome result (λ number. number < 10 ^ most) }
    ensures none { IfNone result ((number : ℕ) → number < 10 ^ most → value.now ≢ decimal number) }
{
    if leads_with_zero(value) {
        return None;
    }
    digits_of(most, value)
}

/// Whether a zero stands before other digits.
fn leads_with_zero(value: &[u8]) -> bool
    ensures { IsTrue result ↔ LeadsWithZero value.now }
{
    value.len() > 1 && value[0] == b'0'
}
