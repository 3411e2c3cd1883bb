use crate::random::Random;
use plain_evaluator::Column;
use std::alloc::Global;
use std::str;
use values::{ColName, Kind, List, Memory, Text, Value};

/// The kinds of the parameters that queries have.
pub const PARAMETER_KINDS: [Kind; 3] = [Kind::Int, Kind::Text, Kind::Bool];

/// Values of these kinds.
pub fn parameter_values(alloc: Global) -> Result<List<Value>, Memory> {
    let mut values = Vec::new(alloc);
    values.push(Value::Int(1))?;
    values.push(Value::Text(Text::from_slice(alloc, b"x")?))?;
    values.push(Value::Bool(true))?;
    Ok(List::from_vec(values))
}

const FEATURES: [&str; 6] = ["A", "B", "C", "D", "E", "F"];

/// Forms of a feature expression, with `@` for a feature.
const EXPRESSIONS: [&str; 9] = [
    "@",
    "@",
    "@",
    "not @",
    "not @",
    "@ and @",
    "@ or not @",
    "not (@ or @)",
    "@ and not @ or @",
];

/// Forms of a condition, with `%` for a comparison and `#` for a feature expression.
const CONDITIONS: [&str; 9] = [
    "%",
    "%",
    "% and %",
    "% or %",
    "not %",
    "not (% or %) and %",
    "choice [#] (%, false)",
    "choice [#] (true, %)",
    "% or choice [#] (%, not %)",
];

const SIGNS: [&str; 6] = ["=", "<>", "<", "<=", ">", ">="];

/// A text that grows by what a random source chooses, over the first features.
#[derive(Drop)]
pub struct Writing<'a> {
    pub random: &'a mut Random,
    pub text: String,
    pub features: usize,
}

impl Writing<'_> {
    pub fn put(&mut self, word: &str) -> Result<(), Memory> {
        self.text.push_str(word)?;
        Ok(())
    }

    pub fn put_feature(&mut self) -> Result<(), Memory> {
        let place = self.random.below(self.features);
        self.put(FEATURES.get(place).copied().unwrap_or("A"))
    }

    /// A comma, but before the first place.
    pub fn put_comma(&mut self, place: usize) -> Result<(), Memory> {
        if place > 0 {
            self.put(", ")?;
        }
        Ok(())
    }

    pub fn put_features(&mut self) -> Result<(), Memory> {
        for (place, name) in FEATURES.iter().take(self.features).enumerate() {
            self.put_comma(place)?;
            self.put(name)?;
        }
        Ok(())
    }

    /// A form, with a feature for each `@`.
    pub fn put_form(&mut self, form: &str) -> Result<(), Memory> {
        for letter in form.chars() {
            if letter == '@' {
                self.put_feature()?;
            } else {
                self.text.push(letter)?;
            }
        }
        Ok(())
    }

    pub fn put_expression(&mut self) -> Result<(), Memory> {
        let form = self.random.word(&EXPRESSIONS);
        self.put_form(form)
    }

    /// Nothing, or `when` and an expression.
    pub fn put_when(&mut self, many: usize) -> Result<(), Memory> {
        if self.random.one_of(many) {
            self.put(" when ")?;
            self.put_expression()?;
        }
        Ok(())
    }

    /// A value that stands in a row.
    pub fn put_value(&mut self, kind: Kind) -> Result<(), Memory> {
        let values = match kind {
            Kind::Int => ["0", "1", "2"],
            Kind::Text => ["'x'", "'y'", "'z'"],
            Kind::Bool => ["true", "false", "true"],
        };
        let value = self.random.word(&values);
        self.put(value)
    }

    /// A condition over these columns.
    pub fn put_condition(&mut self, columns: &[Column]) -> Result<(), Memory> {
        let form = self.random.word(&CONDITIONS);
        for letter in form.chars() {
            match letter {
                '%' => self.put_comparison(columns)?,
                '#' => self.put_expression()?,
                _ => self.text.push(letter)?,
            }
        }
        Ok(())
    }

    fn put_comparison(&mut self, columns: &[Column]) -> Result<(), Memory> {
        let place = self.random.below(columns.len());
        let Some(column) = columns.get(place) else {
            return self.put("true");
        };
        self.put_name(&column.name)?;
        self.put(" ")?;
        let sign = self.random.word(&SIGNS);
        self.put(sign)?;
        self.put(" ")?;
        self.put_partner(columns, column.kind)
    }

    /// What stands opposite a column of this kind; seldom it has another one, or none.
    fn put_partner(&mut self, columns: &[Column], kind: Kind) -> Result<(), Memory> {
        match self.random.below(32) {
            0 => self.put_value(Kind::Int),
            1 => self.put("$4"),
            2 => self.put("q"),
            3 | 4 | 5 => self.put_parameter(kind),
            6 | 7 | 8 | 9 | 10 => {
                let place = self.random.below(columns.len());
                match columns.get(place) {
                    Some(column) => self.put_name(&column.name),
                    None => self.put("0"),
                }
            }
            _ => self.put_value(kind),
        }
    }

    pub fn put_parameter(&mut self, kind: Kind) -> Result<(), Memory> {
        match kind {
            Kind::Int => self.put("$1"),
            Kind::Text => self.put("$2"),
            Kind::Bool => self.put("$3"),
        }
    }

    pub fn put_name(&mut self, name: &ColName) -> Result<(), Memory> {
        if let Some(prefix) = &name.prefix {
            self.put(str::from_utf8(prefix.as_slice()).unwrap_or(""))?;
            self.put(".")?;
        }
        self.put(str::from_utf8(name.base.as_slice()).unwrap_or(""))
    }

    /// Items over these columns: all, or up to three, seldom one that isn't known.
    pub fn put_items(&mut self, columns: &[Column]) -> Result<(), Memory> {
        if columns.is_empty() || self.random.one_of(3) {
            return self.put("*");
        }
        for place in 0..1 + self.random.below(3) {
            self.put_comma(place)?;
            self.put_item(columns)?;
        }
        Ok(())
    }

    fn put_item(&mut self, columns: &[Column]) -> Result<(), Memory> {
        let place = self.random.below(columns.len());
        match columns.get(place) {
            Some(column) if !self.random.one_of(16) => self.put_name(&column.name)?,
            _ => self.put("q")?,
        }
        if self.random.one_of(2) {
            self.put(" as ")?;
            let name = self.random.word(&["a", "b", "e", "x.a", "x.e"]);
            self.put(name)?;
        }
        self.put_when(3)
    }
}
