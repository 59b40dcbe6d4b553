//! Queries and statements as text. A place in the text of a case stands behind `@`.

use sql_model::{
    AggFun, Block, Boxed, Entry, Expr, Item, Name, NameAt, NoMemory, Query, SetOp, Source,
    Statement, TableRule,
};
use std::alloc::Global;

/// The text of trees, as far as it is written.
#[derive(Drop)]
pub struct TreeText {
    alloc: Global,
    text: String,
}

impl TreeText {
    /// Of no tree.
    pub fn new(alloc: Global) -> TreeText {
        TreeText {
            alloc,
            text: String::new(alloc),
        }
    }

    /// What was written.
    pub fn finish(self) -> String {
        self.text
    }

    /// Writes words as they stand.
    pub fn push(&mut self, words: &str) -> Result<(), NoMemory> {
        self.text.push_str(words)
    }

    // ---- names and places

    fn push_at(&mut self, word: &str, at: u32) -> Result<(), NoMemory> {
        let word = format!(in self.alloc; "{word}@{at}")?;
        self.push(word.as_str())
    }

    fn push_numbered(&mut self, word: &str, number: u32, at: u32) -> Result<(), NoMemory> {
        let word = format!(in self.alloc; "{word}{number}@{at}")?;
        self.push(word.as_str())
    }

    fn push_bytes(&mut self, name: &Name) -> Result<(), NoMemory> {
        let name = String::from_utf8_lossy(self.alloc, name.as_bytes())?;
        self.push(name.as_str())
    }

    fn push_name(&mut self, name: &Name, at: u32) -> Result<(), NoMemory> {
        self.push_bytes(name)?;
        self.push_at("", at)
    }

    // Names with their places, in parentheses.
    fn push_names(&mut self, names: &[NameAt]) -> Result<(), NoMemory> {
        self.push("(")?;
        for (index, name) in names.iter().enumerate() {
            if index > 0 {
                self.push(",")?;
            }
            self.push_name(&name.name, name.at)?;
        }
        self.push(")")
    }

    // ---- statements

    /// Writes statements, with a semicolon between them.
    pub fn push_statements(&mut self, statements: &[Statement]) -> Result<(), NoMemory> {
        for (index, statement) in statements.iter().enumerate() {
            if index > 0 {
                self.push("; ")?;
            }
            self.push_statement(statement)?;
        }
        Ok(())
    }

    fn push_statement(&mut self, statement: &Statement) -> Result<(), NoMemory> {
        match statement {
            Statement::Table {
                name,
                columns,
                rules,
            } => {
                self.push("table ")?;
                self.push_name(&name.name, name.at)?;
                self.push_names(columns.as_slice())?;
                self.push_rules(rules.as_slice())
            }
            Statement::View { name, query } => {
                self.push("view ")?;
                self.push_name(&name.name, name.at)?;
                self.push(" ")?;
                self.push_query(query)
            }
            Statement::Index {
                name,
                unique,
                table,
                columns,
            } => {
                self.push(if *unique { "unique index " } else { "index " })?;
                self.push_name(&name.name, name.at)?;
                self.push(" on ")?;
                self.push_name(&table.name, table.at)?;
                self.push_names(columns.as_slice())
            }
        }
    }

    fn push_rules(&mut self, rules: &[TableRule]) -> Result<(), NoMemory> {
        for rule in rules {
            self.push_rule(rule)?;
        }
        Ok(())
    }

    fn push_rule(&mut self, rule: &TableRule) -> Result<(), NoMemory> {
        match rule {
            TableRule::Key {
                primary,
                columns,
                at,
            } => {
                self.push_at(if *primary { " primary" } else { " unique" }, *at)?;
                self.push_names(columns.as_slice())
            }
            TableRule::Foreign {
                columns,
                table,
                target,
            } => {
                self.push(" foreign")?;
                self.push_names(columns.as_slice())?;
                self.push(" to ")?;
                self.push_name(&table.name, table.at)?;
                match target {
                    Some(columns) => self.push_names(columns.as_slice()),
                    None => Ok(()),
                }
            }
        }
    }

    // ---- queries

    /// Writes a query.
    #[cycle(trees)]
    pub fn push_query(&mut self, query: &Query) -> Result<(), NoMemory> {
        match query {
            Query::Block { block } => self.push_block(block.get()),
            Query::Set {
                op,
                left,
                right,
                at,
            } => {
                self.push_at(set_word(*op), *at)?;
                self.push("(")?;
                self.push_query(left.get())?;
                self.push(",")?;
                self.push_query(right.get())?;
                self.push(")")
            }
        }
    }

    // A query in parentheses.
    #[cycle(trees)]
    fn push_inner(&mut self, query: &Boxed<Query>) -> Result<(), NoMemory> {
        self.push("(")?;
        self.push_query(query.get())?;
        self.push(")")
    }

    #[cycle(trees)]
    fn push_block(&mut self, block: &Block) -> Result<(), NoMemory> {
        self.push(if block.distinct {
            "select distinct "
        } else {
            "select "
        })?;
        self.push_items(block.items.as_slice())?;
        self.push_entries(block.entries.as_slice())?;
        self.push_condition(" where ", &block.cond)?;
        if let Some(columns) = &block.groups {
            self.push(" group by ")?;
            self.push_exprs(columns.as_slice())?;
        }
        self.push_condition(" having ", &block.having)
    }

    #[cycle(trees)]
    fn push_condition(&mut self, word: &str, condition: &Option<Expr>) -> Result<(), NoMemory> {
        match condition {
            Some(condition) => {
                self.push(word)?;
                self.push_expr(condition)
            }
            None => Ok(()),
        }
    }

    #[cycle(trees)]
    fn push_items(&mut self, items: &[Item]) -> Result<(), NoMemory> {
        for (index, item) in items.iter().enumerate() {
            if index > 0 {
                self.push(",")?;
            }
            self.push_item(item)?;
        }
        Ok(())
    }

    #[cycle(trees)]
    fn push_item(&mut self, item: &Item) -> Result<(), NoMemory> {
        match item {
            Item::Star { at } => self.push_at("*", *at),
            Item::AliasStar { alias, at } => {
                self.push_bytes(alias)?;
                self.push_at(".*", *at)
            }
            Item::Value { expr, name } => {
                self.push_expr(expr)?;
                match name {
                    Some(name) => {
                        self.push(" as ")?;
                        self.push_bytes(name)
                    }
                    None => Ok(()),
                }
            }
        }
    }

    #[cycle(trees)]
    fn push_entries(&mut self, entries: &[Entry]) -> Result<(), NoMemory> {
        for (index, entry) in entries.iter().enumerate() {
            self.push(if entry.joined {
                " join "
            } else if index == 0 {
                " from "
            } else {
                ","
            })?;
            self.push_entry(entry)?;
        }
        Ok(())
    }

    #[cycle(trees)]
    fn push_entry(&mut self, entry: &Entry) -> Result<(), NoMemory> {
        match &entry.source {
            Source::Named { name, at } => self.push_name(name, *at)?,
            Source::Query { query } => self.push_inner(query)?,
        }
        if !is_own_alias(entry) {
            self.push(" ")?;
            self.push_name(&entry.alias, entry.at)?;
        }
        self.push_condition(" on ", &entry.on)
    }

    // ---- expressions

    // Expressions with commas between them.
    #[cycle(trees)]
    fn push_exprs(&mut self, exprs: &[Expr]) -> Result<(), NoMemory> {
        for (index, expr) in exprs.iter().enumerate() {
            if index > 0 {
                self.push(",")?;
            }
            self.push_expr(expr)?;
        }
        Ok(())
    }

    #[cycle(trees)]
    fn push_parts(&mut self, parts: &[Expr]) -> Result<(), NoMemory> {
        self.push("(")?;
        self.push_exprs(parts)?;
        self.push(")")
    }

    #[cycle(trees)]
    fn push_expr(&mut self, expr: &Expr) -> Result<(), NoMemory> {
        self.push_head(expr)?;
        match expr {
            Expr::Col { .. } | Expr::Lit { .. } => Ok(()),
            Expr::Fun { args, .. } | Expr::Pred { args, .. } | Expr::Call { args, .. } => {
                self.push_parts(args.as_slice())
            }
            Expr::And { parts, .. } => self.push_parts(parts.as_slice()),
            Expr::Or { parts, .. } => self.push_parts(parts.as_slice()),
            Expr::Agg { distinct, arg, .. } => self.push_argument(*distinct, arg),
            Expr::Eq { left, right, .. } => {
                self.push("(")?;
                self.push_expr(left.get())?;
                self.push(",")?;
                self.push_expr(right.get())?;
                self.push(")")
            }
            Expr::Not { part, .. } => {
                self.push("(")?;
                self.push_expr(part.get())?;
                self.push(")")
            }
            Expr::Sub { query, .. } | Expr::Exists { query, .. } => self.push_inner(query),
            Expr::In { value, query, .. } => {
                self.push("(")?;
                self.push_expr(value.get())?;
                self.push(",")?;
                self.push_query(query.get())?;
                self.push(")")
            }
        }
    }

    // What an aggregate is taken of.
    #[cycle(trees)]
    fn push_argument(
        &mut self,
        distinct: bool,
        argument: &Option<Boxed<Expr>>,
    ) -> Result<(), NoMemory> {
        self.push(if distinct { "(distinct " } else { "(" })?;
        match argument {
            Some(argument) => self.push_expr(argument.get())?,
            None => self.push("*")?,
        }
        self.push(")")
    }

    // The word of a node, with its number and its place; the whole of a column.
    fn push_head(&mut self, expr: &Expr) -> Result<(), NoMemory> {
        match expr {
            Expr::Col {
                qual,
                qual_at,
                name,
                at,
            } => {
                if let Some(qual) = qual {
                    self.push_name(qual, *qual_at)?;
                    self.push(".")?;
                }
                self.push_name(name, *at)
            }
            Expr::Lit { lit, at } => self.push_numbered("lit", *lit, *at),
            Expr::Fun { sym, at, .. } => self.push_numbered("fun", *sym, *at),
            Expr::Pred { sym, at, .. } => self.push_numbered("pred", *sym, *at),
            Expr::Call { sym, at, .. } => self.push_numbered("call", *sym, *at),
            Expr::Agg { fun, at, .. } => self.push_at(aggregate_word(*fun), *at),
            Expr::Sub { at, .. } => self.push_at("sub", *at),
            Expr::Eq { at, .. } => self.push_at("eq", *at),
            Expr::And { at, .. } => self.push_at("and", *at),
            Expr::Or { at, .. } => self.push_at("or", *at),
            Expr::Not { at, .. } => self.push_at("not", *at),
            Expr::Exists { at, .. } => self.push_at("exists", *at),
            Expr::In { at, in_at, .. } => {
                self.push_at("in", *at)?;
                self.push_at("", *in_at)
            }
        }
    }
}

fn set_word(op: SetOp) -> &'static str {
    match op {
        SetOp::UnionAll => "union-all",
        SetOp::Union => "union",
        SetOp::Except => "except",
        SetOp::Intersect => "intersect",
    }
}

fn aggregate_word(fun: AggFun) -> &'static str {
    match fun {
        AggFun::Count => "count",
        AggFun::Sum => "sum",
        AggFun::Avg => "avg",
        AggFun::Min => "min",
        AggFun::Max => "max",
    }
}

// Whether the alias is the name of the entry's table, at its place.
fn is_own_alias(entry: &Entry) -> bool {
    match &entry.source {
        Source::Named { name, at } => *at == entry.at && *name == entry.alias,
        Source::Query { .. } => false,
    }
}
