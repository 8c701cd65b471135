//! The degrees of the elements and statements of a sketch.

ghost use Rattle.std.specs.Prelude.{◌≡◌, ◌≢◌, ℕ, ◌+◌, ◌*◌, ◌<◌, ◌≤◌, ◌==◌, if◌then◌else◌, ◌++◌, length, max, All, IfOk, OnOk, MatchOption, slice_index_or};
ghost use Rattle.geo_sketch.specs.Constructions.{by_def};
ghost use Rattle.geo_sketch.specs.declared.limits.TheConstants.{PARAMETER_LIMIT};
ghost use Rattle.geo_sketch.specs.Tables.{place};
ghost use Rattle.geo_sketch.specs.Lookups.{IsLive};
ghost use Rattle.geo_sketch.specs.Needs.{AtStated};
ghost use Rattle.geo_degree.specs.Degrees.{degree_algebra, degree_of, element_degree_limit, statement_degree, statement_degree_limit};
ghost use Rattle.geo_degree.specs.Grids.{parameters_of as all_parameters};
ghost use Rattle.geo_sketch.specs.Assignments.{own_parameters};
ghost use Rattle.geo_degree.specs.Rows.{AreLow, HaveRows, column};

use geo_sketch::{
    Def, Element, NoMemory, PARAMETER_LIMIT, Sketch, Statement, first_parameter, place_of,
    second_parameter,
};
use std::alloc::{AllocError, Global};
use std::marker::Model;

/// The degrees of an element in the parameters of a sketch, in the order of these.
type Row = [u8; PARAMETER_LIMIT];

/// The degree of each element of a sketch in each parameter. Contracts see the list of
/// the elements.
#[derive(Drop)]
pub struct Degrees {
    elements: Vec<Element>,
    /// The parameters of the elements, by rising number.
    parameters: Vec<u64>,
    /// For each element the degrees in these.
    rows: Vec<Row>,
}

impl Model for Degrees {
    ghost use Rattle.std.specs.Prelude.{List};
    ghost use Rattle.geo_sketch.specs.declared.elements.Element.{Element};
    ghost use Rattle.geo_degree.specs.Rows.{IsTabulated};

    ghost Value = { List Element };

    ghost view = { λ d. d.elements.items };

    ghost invariant = { λ d. IsTabulated d.elements.items d.parameters.items d.rows.items };
}

impl Degrees {
    /// The degrees of the elements of a sketch.
    pub fn of(alloc: Global, sketch: &Sketch) -> Result<Degrees, NoMemory>
        ensures { IfOk result (λ degrees. degrees ≡ sketch.now.elements) }
    {
        let parameters = list_parameters(alloc, sketch.elements())?;
        let rows = list_rows(alloc, sketch, &parameters)?;
        match sketch.elements().to_vec(alloc) {
            Ok(elements) => Ok(Degrees {
                elements,
                parameters,
                rows,
            }),
            Err(_) => Err(NoMemory),
        }
    }

    /// The degree of a live element in a parameter, which need not be one of a live
    /// element.
    pub fn of_element(&self, n: u32, p: u32) -> u64
        requires { IsLive self.now n }
        ensures degree { result ≡ degree_of self.now n p }
        ensures low { result ≤ element_degree_limit }
    {
        match self.column_of(p) {
            Some(column) => self.in_column(n, column),
            None => 0,
        }
    }

    /// The degree of a statement about live elements in a parameter.
    pub fn of_statement(&self, s: &Statement, p: u32) -> u64
        requires { AtStated s.now (IsLive self.now) }
        ensures degree { result ≡ statement_degree self.now s.now p }
        ensures low { result ≤ statement_degree_limit }
    {
        let Some(column) = self.column_of(p) else {
            return 0;
        };
        match s {
            Statement::Null(n) => self.in_column(*n, column),
            Statement::Same(n, m) | Statement::On(n, m) => {
                self.in_column(*n, column) + self.in_column(*m, column)
            }
            Statement::Triple(n, m, k) => {
                self.in_column(*n, column) + self.in_column(*m, column) + self.in_column(*k, column)
            }
        }
    }

    /// Where a parameter stands among those of the elements. Elsewhere all degrees are 0.
    fn column_of(&self, p: u32) -> Option<usize>
        ensures { MatchOption result ((n : ℕ) → degree_of self.now n p ≡ 0) (λ c. (c < length (all_parameters self.now)) × (slice_index_or (all_parameters self.now) c 0 ≡ p)) }
    {
        place_among(&self.parameters, u64::from(p))
    }

    /// The degree of a live element in the parameter that stands there.
    fn in_column(&self, n: u32, column: usize) -> u64
        requires live { IsLive self.now n }
        requires within { column < length (all_parameters self.now) }
        ensures degree { result ≡ degree_of self.now n (slice_index_or (all_parameters self.now) column 0) }
        ensures low { result ≤ element_degree_limit }
    {
        u64::from(row_at(&self.elements, &self.rows, n)[column])
    }
}

/// The parameters of the elements, by rising number.
fn list_parameters(alloc: Global, elements: &[Element]) -> Result<Vec<u64>, NoMemory>
    ensures { IfOk result (λ parameters. parameters.items ≡ all_parameters elements.now) }
{
    let mut parameters = Vec::new(alloc);
    for element in elements {
        if add_parameters(element, &mut parameters).is_err() {
            return Err(NoMemory);
        }
    }
    Ok(parameters)
}

/// Adds the parameters of an element.
fn add_parameters(element: &Element, parameters: &mut Vec<u64>) -> Result<(), AllocError>
    ensures { OnOk result (parameters.new.items ≡ parameters.old.items ++ own_parameters element.now.number element.now.def) }
{
    let first = first_parameter(element.number);
    match element.def {
        Def::Free => {
            parameters.push(first)?;
            parameters.push(second_parameter(element.number))?;
        }
        Def::Cut(_) | Def::Blend(_, _) => parameters.push(first)?,
        Def::Fixed(_, _, _) | Def::Cross(_, _) => {}
    }
    Ok(())
}

/// The rows of all elements, each from those before it.
fn list_rows(alloc: Global, sketch: &Sketch, parameters: &[u64]) -> Result<Vec<Row>, NoMemory>
    requires { parameters.now ≡ all_parameters sketch.now.elements }
    ensures { IfOk result (λ rows. (length rows.items ≡ length sketch.now.elements) × HaveRows sketch.now.elements rows.items (length sketch.now.elements)) }
{
    let elements = sketch.elements();
    let Ok(mut rows) = Vec::with_capacity(alloc, elements.len()) else {
        return Err(NoMemory);
    };
    for element in elements {
        let row = row_by(elements, parameters, &rows, element);
        if rows.push(row).is_err() {
            return Err(NoMemory);
        }
    }
    Ok(rows)
}

/// The row of an element, from those of earlier ones.
fn row_by(elements: &[Element], parameters: &[u64], rows: &[Row], element: &Element) -> Row
    requires few { length parameters.now ≤ PARAMETER_LIMIT }
    requires low { AreLow parameters.now rows.now }
    ensures { (c : ℕ) → c < length parameters.now → slice_index_or result c 0 ≡ by_def (degree_algebra (slice_index_or parameters.now c 0)) element.now.number element.now.def (λ k. slice_index_or (column rows.now c) (place elements.now k) 0) }
{
    let own = first_parameter(element.number);
    match &element.def {
        Def::Free => {
            let row = marked(parameters, own, &[0; PARAMETER_LIMIT]);
            marked(parameters, second_parameter(element.number), &row)
        }
        Def::Fixed(_, _, _) => [0; PARAMETER_LIMIT],
        Def::Cut(k) => marked(parameters, own, &row_at(elements, rows, *k)),
        Def::Blend(k, m) => {
            let row = larger(&row_at(elements, rows, *k), &row_at(elements, rows, *m));
            marked(parameters, own, &row)
        }
        Def::Cross(k, m) => sum(
            parameters.len(),
            &row_at(elements, rows, *k),
            &row_at(elements, rows, *m),
        ),
    }
}

/// A row with 1 in the column of a parameter.
fn marked(parameters: &[u64], own: u64, row: &Row) -> Row
    requires { length parameters.now ≤ PARAMETER_LIMIT }
    ensures { (c : ℕ) → c < length parameters.now → slice_index_or result c 0 ≡ (if own == slice_index_or parameters.now c 0 then 1 else slice_index_or row.now c 0) }
{
    let mut marked = *row;
    for c in 0..parameters.len() {
        if own == parameters[c] {
            marked[c] = 1;
        }
    }
    marked
}

/// In each column the larger degree.
fn larger(first: &Row, second: &Row) -> Row
    ensures { (c : ℕ) → c < PARAMETER_LIMIT → slice_index_or result c 0 ≡ max (slice_index_or first.now c 0) (slice_index_or second.now c 0) }
{
    let mut row = [0; PARAMETER_LIMIT];
    for c in 0..PARAMETER_LIMIT {
        row[c] = first[c].max(second[c]);
    }
    row
}

/// In each of the first so many columns the sum of the degrees.
fn sum(count: usize, first: &Row, second: &Row) -> Row
    requires few { count ≤ PARAMETER_LIMIT }
    requires low { (c : ℕ) → c < count → (slice_index_or first.now c 0 ≤ element_degree_limit) × (slice_index_or second.now c 0 ≤ element_degree_limit) }
    ensures { (c : ℕ) → c < count → slice_index_or result c 0 ≡ slice_index_or first.now c 0 + slice_index_or second.now c 0 }
{
    let mut row = [0; PARAMETER_LIMIT];
    for c in 0..count {
        row[c] = first[c] + second[c];
    }
    row
}

/// The row of the element with this number, as far as the table has it.
fn row_at(elements: &[Element], rows: &[Row], number: u32) -> Row
    ensures { (c : ℕ) → slice_index_or result c 0 ≡ slice_index_or (column rows.now c) (place elements.now number) 0 }
{
    match rows.get(place_of(elements, number)) {
        Some(row) => *row,
        None => [0; PARAMETER_LIMIT],
    }
}

/// The place of a number in a list.
fn place_among(numbers: &[u64], number: u64) -> Option<usize>
    ensures { MatchOption result (All (λ n. n ≢ number) numbers.now) (λ i. (i < length numbers.now) × (slice_index_or numbers.now i 0 ≡ number)) }
{
    numbers.iter().position(|n| *n == number)
}
