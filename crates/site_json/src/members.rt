//! Members of a tree, by their keys and with the shape that they must have.

ghost use Rattle.std.specs.Prelude.{◌≡◌, ◌+◌, ◌<◌, ◌^◌, option_map, option_and_then, map, length};
ghost use Rattle.serde_json.specs.Find.{get, as_bool};
ghost use Rattle.serde_json.specs.View.{view};
ghost use Rattle.run_definitions.specs.Json.{whole, text, is_same_text, is_text, has_all, has_exactly, members_at, are_arrays, is_array_or_none, is_true, keys_there};

use serde_json::Value;

/// The whole number within 64 bits with a sign that the member is, where it is one.
pub(crate) fn whole(member: Option<&Value>) -> Option<i128>
    ensures { result ≡ whole (option_map (λ v. view v.now) member.entry) }
{
    let number = member?.as_i64()?;
    Some(i128::from(number))
}

/// The whole number at a key, where there is one.
pub(crate) fn whole_at(object: &Value, key: &str) -> Option<i128>
    ensures { result ≡ whole (get key.now (view object.now)) }
{
    whole(object.get(key))
}

/// The text at a key, where there is one.
pub(crate) fn text_at<'v>(object: &'v Value, key: &str) -> Option<&'v str>
    ensures { option_map (λ t. t.now) result ≡ text (get key.now (view object.now)) }
{
    object.get(key)?.as_str()
}

/// Whether the text at a key is this word.
pub(crate) fn is_text_at(object: &Value, key: &str, word: &str) -> bool
    ensures { result ≡ is_text (get key.now (view object.now)) word.now }
{
    match text_at(object, key) {
        Some(text) => word == text,
        None => false,
    }
}

/// Whether `true` stands at a key.
pub(crate) fn is_true_at(object: &Value, key: &str) -> bool
    ensures { result ≡ is_true (option_and_then as_bool (get key.now (view object.now))) }
{
    match object.get(key) {
        Some(member) => member.as_bool() == Some(true),
        None => false,
    }
}

/// Whether the value is an object that has all these keys.
pub(crate) fn has_all(object: &Value, keys: &[&str]) -> bool
    ensures { result ≡ has_all (map (λ k. k.now) keys.now) (view object.now) }
{
    for key in keys {
        if object.get(*key).is_none() {
            return false;
        }
    }
    true
}

/// Whether the value is an object with exactly these keys, which differ.
pub(crate) fn has_exactly(object: &Value, keys: &[&str]) -> bool
    ensures { result ≡ has_exactly (map (λ k. k.now) keys.now) (view object.now) }
{
    let Some(members) = object.as_object() else {
        return false;
    };
    if !has_all(object, keys) {
        return false;
    }
    members.len() == keys.len()
}

/// The members of the array at a key; none where there is no array.
pub(crate) fn members_at<'v>(object: &'v Value, key: &str) -> &'v [Value]
    ensures members { map view result.now ≡ members_at key.now (view object.now) }
    ensures room { length result.now < 2 ^ 63 }
{
    let Some(member) = object.get(key) else {
        return &[];
    };
    match member.as_array() {
        Some(members) => members.as_slice(),
        None => &[],
    }
}

/// How many of these keys are there.
pub(crate) fn count_there(object: &Value, keys: &[&str]) -> usize
    ensures { result ≡ length (keys_there (map (λ k. k.now) keys.now) (view object.now)) }
{
    let mut count = 0;
    for key in keys {
        if object.get(*key).is_some() {
            count += 1;
        }
    }
    count
}

/// Whether an array stands at each of these keys that is there.
pub(crate) fn are_arrays(object: &Value, keys: &[&str]) -> bool
    ensures { result ≡ are_arrays (map (λ k. k.now) keys.now) (view object.now) }
{
    for key in keys {
        if !is_array_or_none(object.get(*key)) {
            return false;
        }
    }
    true
}

/// Whether the member is missing or an array.
fn is_array_or_none(member: Option<&Value>) -> bool
    ensures { result ≡ is_array_or_none (option_map (λ v. view v.now) member.entry) }
{
    match member {
        Some(value) => value.is_array(),
        None => true,
    }
}
