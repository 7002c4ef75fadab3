//! What a key may hold that has an array: names, and tables.
ghost use Rattle.std.specs.Prelude.{◌≡◌, ◌↔◌, IfOk, IsTrue, map};
ghost use Rattle.std.specs.List.{AllPairs};
ghost use Rattle.alog_config.specs.Values.{AreLent, AreNames, IsField, IsNameList, IsTableArray, IsTexts};
ghost use Rattle.toml.specs.Data.{get_member};
ghost use Rattle.toml.specs.View.{table_view, view};

use crate::field::Field;
use crate::names::NameList;
use crate::values::value_at;
use crate::{NAMES_MAX, TABLES_MAX};
use alog_msg::Text;
use std::alloc::{AllocError, Global};
use toml::{Table, Value};

/// The texts of an array that has texts alone.
fn texts_of(alloc: Global, items: &[Value]) -> Result<Option<NameList>, AllocError>
    ensures { IfOk result (IsTexts (map view items.now)) }
{
    let mut texts = NameList::new(alloc);
    for item in items {
        let Some(text) = item.as_str() else {
            return Ok(None);
        };
        texts.push(alloc, text)?;
    }
    Ok(Some(texts))
}

/// Whether no name stands twice.
fn are_apart(names: &[Text]) -> bool
    ensures { IsTrue result ↔ AllPairs (λ a b. ¬ (a ≡ b)) names.now }
{
    for i in 0..names.len() {
        for j in 0..i {
            if names[j].as_str() == names[i].as_str() {
                return false;
            }
        }
    }
    true
}

/// Whether a table may have these names at one key.
fn are_names(names: &NameList) -> bool
    ensures { IsTrue result ↔ AreNames names.now }
{
    (1..=NAMES_MAX).contains(&names.len()) && are_apart(names.as_slice())
}

/// The names at a key: 1 to 16, none twice.
pub(crate) fn names_at(
    alloc: Global,
    table: &Table,
    key: &str,
) -> Result<Field<NameList>, AllocError>
    ensures { IfOk result (IsField IsNameList (get_member key.now (table_view table.now))) }
{
    let Some(value) = value_at(table, key) else {
        return Ok(Field::Absent);
    };
    let Some(items) = value.as_array() else {
        return Ok(Field::Bad);
    };
    let Some(names) = texts_of(alloc, items.as_slice())? else {
        return Ok(Field::Bad);
    };
    if are_names(&names) {
        Ok(Field::Given(names))
    } else {
        Ok(Field::Bad)
    }
}

/// The tables of an array that has tables alone.
fn tables_of(alloc: Global, items: &[Value]) -> Result<Option<Vec<&Table>>, AllocError>
    ensures { IfOk result (AreLent (map view items.now)) }
{
    let mut tables = Vec::new(alloc);
    for item in items {
        let Some(table) = item.as_table() else {
            return Ok(None);
        };
        if tables.push(table).is_err() {
            return Err(AllocError);
        }
    }
    Ok(Some(tables))
}

/// The tables at a key: an array of at most 256, which may have none.
pub(crate) fn tables_at<'t>(
    alloc: Global,
    table: &'t Table,
    key: &str,
) -> Result<Field<Vec<&'t Table>>, AllocError>
    ensures { IfOk result (IsField IsTableArray (get_member key.now (table_view table.now))) }
{
    let Some(value) = value_at(table, key) else {
        return Ok(Field::Absent);
    };
    let Some(items) = value.as_array() else {
        return Ok(Field::Bad);
    };
    let Some(tables) = tables_of(alloc, items.as_slice())? else {
        return Ok(Field::Bad);
    };
    if tables.len() <= TABLES_MAX {
        Ok(Field::Given(tables))
    } else {
        Ok(Field::Bad)
    }
}
