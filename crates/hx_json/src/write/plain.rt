// How far a text wants no escape, 16 bytes at a step.
ghost use Rattle.std.specs.Prelude.{◌≡◌, ◌+◌, ◌<◌, ◌≤◌, ℕ, length};
ghost use Rattle.std.specs.Bool.{OnTrue};
ghost use Rattle.std.specs.List.{prefix_len};
ghost use Rattle.json.specs.Run.{is_plain};
ghost use Rattle.json.specs.Written.{PlainBetween};

use std::simd::prelude::*;

/// How many bytes at the front want no escape.
pub(super) fn plain_len(bytes: &[u8]) -> usize
    ensures { result ≡ prefix_len is_plain bytes.now }
{
    let mut at = 0;
    while bytes.len() - at >= 16 && are_16_plain(bytes, at) {
        at += 16;
    }
    if bytes.len() - at < 16 && is_end_plain(bytes) {
        return bytes.len();
    }
    while bytes.len() - at >= 8 && are_8_plain(bytes, at) {
        at += 8;
    }
    while at < bytes.len() && wants_no_escape(bytes[at]) {
        at += 1;
    }
    at
}

/// Whether the last 16 bytes want no escape, or all of fewer. Two looks that overlap serve for 8 to 15, and of fewer than 8 it isn't told.
#[inline(always)]
fn is_end_plain(bytes: &[u8]) -> bool
    ensures { OnTrue result ((i : ℕ) → length bytes.now < i + 16 → PlainBetween bytes.now i (length bytes.now)) }
{
    let len = bytes.len();
    if len >= 16 {
        are_16_plain(bytes, len - 16)
    } else {
        len >= 8 && are_8_plain(bytes, 0) && are_8_plain(bytes, len - 8)
    }
}

#[inline(always)]
fn wants_no_escape(byte: u8) -> bool
    ensures { result ≡ is_plain byte }
{
    !(byte == b'"' || byte == b'\\' || byte < 32)
}

#[inline(always)]
fn are_16_plain(bytes: &[u8], at: usize) -> bool
    requires { at + 16 ≤ length bytes.now }
    ensures { OnTrue result (PlainBetween bytes.now at (at + 16)) }
{
    let lanes = u8x16::from_slice(&bytes[at..]);
    (lanes.simd_eq(u8x16::splat(b'"'))
        | lanes.simd_eq(u8x16::splat(b'\\'))
        | lanes.simd_lt(u8x16::splat(32))).to_bitmask()
        == 0
}

#[inline(always)]
fn are_8_plain(bytes: &[u8], at: usize) -> bool
    requires { at + 8 ≤ length bytes.now }
    ensures { OnTrue result (PlainBetween bytes.now at (at + 8)) }
{
    let lanes = u8x8::from_slice(&bytes[at..]);
    (lanes.simd_eq(u8x8::splat(b'"'))
        | lanes.simd_eq(u8x8::splat(b'\\'))
        | lanes.simd_lt(u8x8::splat(32))).to_bitmask()
        == 0
}
