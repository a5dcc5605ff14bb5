//! A table of rows by model and id, kept in pages that several tables may share.

ghost use Rattle.std.specs.Prelude.{◌≡◌, ◌<◌, length, map, is_some, IfOk, OnOk, OnErr};
ghost use Rattle.std.specs.List.{enumerate_from};
ghost use Rattle.std.specs.Option.{option_copied};
ghost use Rattle.doll_table.specs.Tables.{empty_table, row_of, ids_of, children_of, ids_under, next_of, put_row, without_row, without_rows, ids_among, extent_without, put_next};
ghost use Rattle.doll_table.specs.Fits.{Fits};

use crate::model_rows::ModelRows;
use crate::rows::Assoc;
use doll_schema::{Row, Schema};
use doll_text::{Copied, Memory, Shared};
use std::alloc::Global;
use std::marker::Model;

/// The rows of each model of a schema.
#[derive(Drop)]
pub struct Table {
    alloc: Global,
    schema: Shared<Schema>,
    models: Vec<ModelRows>,
}

impl Model for Table {
    ghost use Rattle.std.specs.Prelude.{◌≡◌, length};
    ghost use Rattle.doll_table.specs.Tables.{TableMap};
    ghost use Rattle.doll_table.specs.Codes.{table_code};

    ghost Value = { TableMap };

    ghost coded = { table_code };

    ghost view = { λ t. record { schema = t.schema; extents = t.models.items } };

    ghost invariant = { λ t. length t.models.items ≡ length t.schema.models };
}

impl Table {
    /// A table under this schema, without rows. Each next id is 1.
    pub fn empty(alloc: Global, schema: &Schema) -> Result<Table, Memory>
        ensures empty { IfOk result (λ table. table ≡ empty_table schema.now) }
        ensures fits { IfOk result (λ table. Fits schema.now table) }
    {
        let mut models = Vec::new(alloc);
        for _model in schema.models() {
            models.push(ModelRows::new(alloc)?)?;
        }
        let schema = Shared::new(alloc, schema.copy(alloc)?)?;
        Ok(Table {
            alloc,
            schema,
            models,
        })
    }

    /// The same table once more. No row is copied: a write to either of the two copies what it changes.
    pub fn share(&self, alloc: Global) -> Result<Table, Memory>
        ensures { IfOk result (λ table. table ≡ self.now) }
    {
        let schema = self.schema.copy(alloc)?;
        let models = share_models(alloc, self.models.as_slice())?;
        Ok(Table {
            alloc,
            schema,
            models,
        })
    }

    /// A table with the same schema, rows and next ids: as `share`.
    pub fn copy(&self, alloc: Global) -> Result<Table, Memory>
        ensures { IfOk result (λ copy. copy ≡ self.now) }
    {
        self.share(alloc)
    }

    /// The schema that the table was made for.
    pub fn schema(&self) -> &Schema
        ensures { result.now ≡ self.now.schema }
    {
        self.schema.get()
    }

    /// The row of a model under an id, none exactly where no such row lives.
    pub fn row(&self, model: u16, id: u32) -> Option<&Row>
        ensures { option_copied result ≡ row_of self.now model id }
    {
        match self.models.get(model as usize) {
            Some(rows) => rows.row(id),
            None => None,
        }
    }

    /// The living ids of a model, ascending.
    pub fn all(&self, model: u16) -> &[u32]
        ensures { result.now ≡ ids_of self.now model }
    {
        match self.models.get(model as usize) {
            Some(rows) => rows.ids(),
            None => &[],
        }
    }

    /// The ids of a record's children, ascending.
    pub fn children(&self, assoc: Assoc, parent: u32) -> &[u32]
        ensures { result.now ≡ children_of self.now assoc.model assoc.has_many parent }
    {
        let Some(model) = self.schema.get().model(assoc.model) else {
            return &[];
        };
        let Some(many) = model.has_many.get(assoc.has_many as usize) else {
            return &[];
        };
        self.named(many.model, many.inverse, parent)
    }

    /// The ids of a model's rows whose key at a place names a parent, ascending.
    pub fn named(&self, model: u16, place: u16, parent: u32) -> &[u32]
        ensures { result.now ≡ ids_under self.now model place parent }
    {
        match self.models.get(model as usize) {
            Some(rows) => rows.children(place, parent),
            None => &[],
        }
    }

    /// The id that the next row of a model gets.
    pub fn next(&self, model: u16) -> u32
        requires { model < length self.now.schema.models }
        ensures { result ≡ next_of self.now model }
    {
        self.models[model as usize].next()
    }

    /// Sets the id that the next row of a model gets.
    pub fn set_next(&mut self, model: u16, next: u32)
        requires { model < length self.old.schema.models }
        ensures { self.new ≡ put_next self.old model next }
    {
        let extent = &mut self.models[model as usize];
        extent.set_next(next);
    }

    /// Puts a row under an id, in the place of what was there. A refusal changes nothing.
    pub fn put(&mut self, model: u16, id: u32, row: Row) -> Result<(), Memory>
        requires { model < length self.old.schema.models }
        ensures ok { OnOk result (self.new ≡ put_row self.old model id row) }
        ensures err { OnErr result (self.new ≡ self.old) }
    {
        let rows = &mut self.models[model as usize];
        rows.put(self.alloc, id, row)
    }

    /// Takes the row under an id away; the answer is whether it lived. A refusal changes nothing.
    pub fn remove(&mut self, model: u16, id: u32) -> Result<bool, Memory>
        requires { model < length self.old.schema.models }
        ensures lived { IfOk result (λ lived. lived ≡ is_some (row_of self.old model id)) }
        ensures ok { OnOk result (self.new ≡ without_row self.old model id) }
        ensures err { OnErr result (self.new ≡ self.old) }
    {
        let rows = &mut self.models[model as usize];
        rows.remove(self.alloc, id)
    }

    /// Takes the rows of records away, each the number of its model and its id; one that doesn't live stays away. Beside
    /// what each row costs, the ids of each of their models are passed through once, and the children of each of their
    /// parents. A refusal changes nothing.
    pub fn remove_all(&mut self, records: &[(u16, u32)]) -> Result<(), Memory>
        ensures ok { OnOk result (self.new ≡ without_rows self.old records.now) }
        ensures err { OnErr result (self.new ≡ self.old) }
    {
        let models = models_without(self.alloc, self.models.as_slice(), records)?;
        self.models = models;
        Ok(())
    }
}

fn share_models(alloc: Global, models: &[ModelRows]) -> Result<Vec<ModelRows>, Memory>
    ensures { IfOk result (λ copy. copy.items ≡ models.now) }
{
    let mut copy = Vec::new(alloc);
    for rows in models {
        copy.push(rows.share(alloc)?)?;
    }
    Ok(copy)
}

#[tactic(auto, using(crate::proofs::Without::left_more))]
fn models_without(
    alloc: Global,
    models: &[ModelRows],
    records: &[(u16, u32)],
) -> Result<Vec<ModelRows>, Memory>
    ensures { IfOk result
        (λ left. left.items ≡ map (extent_without records.now) (enumerate_from 0 models.now)) }
{
    let mut left = Vec::new(alloc);
    for (number, rows) in models.iter().enumerate() {
        left.push(model_without(alloc, rows, number, records)?)?;
    }
    Ok(left)
}

/// The rows of the model with this number without those of these records.
fn model_without(
    alloc: Global,
    rows: &ModelRows,
    number: usize,
    records: &[(u16, u32)],
) -> Result<ModelRows, Memory>
    ensures { IfOk result (λ left. left ≡ extent_without records.now (number, rows.now)) }
{
    let ids = ids_among(alloc, records, number)?;
    let mut left = rows.share(alloc)?;
    left.remove_all(alloc, ids.as_slice())?;
    Ok(left)
}

/// The ids of those of these records that are of the model with this number.
fn ids_among(alloc: Global, records: &[(u16, u32)], number: usize) -> Result<Vec<u32>, Memory>
    ensures { IfOk result (λ ids. ids.items ≡ ids_among records.now number) }
{
    let mut ids = Vec::new(alloc);
    for (model, id) in records {
        if *model as usize == number {
            ids.push(*id)?;
        }
    }
    Ok(ids)
}
