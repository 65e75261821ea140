// The labels of predicates: those of one part have one label, the lowest of them.
ghost use Rattle.std.specs.Prelude.{map, ◌≡◌, ℕ, ◌+◌, ◌*◌, ◌<◌, ◌≤◌, length, get_or};
ghost use Rattle.lists.specs.Tabulate.{tabulate};
ghost use Rattle.problem.specs.Table.{Lawful};
ghost use Rattle.problem.specs.Layout.{problem_in};
ghost use Rattle.parting.specs.terms.Labels.{renamed, merged, merged_slots, merged_clause, clause_at, lead_at, labels_in};

// One label for another.
fn renamed(x: u8, from: u8, to: u8) -> u8
    ensures { result ≡ renamed from to x }
{
    if x == from { to } else { x }
}

// One label for another, wherever it stands.
fn rename(labels: &mut [u8], from: u8, to: u8)
    ensures { labels.new ≡ map (renamed from to) labels.old }
{
    for i in 0..labels.len() {
        labels[i] = renamed(labels[i], from, to);
    }
}

// Makes the labels of two predicates one.
fn merge(labels: &mut [u8], p: u8, r: u8)
    requires { (p < length labels.old) × (r < length labels.old) }
    ensures { labels.new ≡ merged p r labels.old }
{
    let a = labels[p as usize];
    let b = labels[r as usize];
    if a < b {
        rename(labels, b, a);
        return;
    }
    rename(labels, a, b);
}

// Makes the labels of p and of the predicates in `count` slots from a place on one.
fn merge_slots(table: &[u8], at: usize, count: u8, p: u8, labels: &mut [u8])
    requires count_in_bounds { (at + 6 * count ≤ length table.now) × (length labels.old ≡ 33) × (p < 33) }
    requires by_index { (i : ℕ) → i < count → get_or table.now (at + 6 * i) 0 < 33 }
    ensures { labels.new ≡ merged_slots table.now at p count labels.old }
{
    for i in 0..count {
        merge(labels, p, table[at + 6 * (i as usize)]);
    }
}

// The predicate of a clause's first atom, 32 where it has none.
pub fn lead(table: &[u8], k: u8) -> u8
    requires lawful { Lawful table.now }
    requires k_in_bounds { k < length (problem_in table.now).clauses }
    ensures { (result ≡ lead_at table.now k) × (result < 33) }
{
    let at = 144 + 56 * (k as usize);
    if 0 < table[at] {
        return table[at + 8];
    }
    if 0 < table[at + 1] {
        return table[at + 32];
    }
    32
}

// Makes the labels of all predicates of a clause one.
fn merge_clause(table: &[u8], k: u8, labels: &mut [u8])
    requires lawful { Lawful table.now }
    requires k_in_bounds { (k < length (problem_in table.now).clauses) × (length labels.old ≡ 33) }
    ensures { labels.new ≡ merged_clause table.now k labels.old }
{
    let at = 144 + 56 * (k as usize);
    let p = lead(table, k);
    merge_slots(table, at + 8, table[at], p, labels);
    merge_slots(table, at + 32, table[at + 1], p, labels);
}

// Each predicate its own label.
fn number(labels: &mut [u8])
    requires { length labels.old ≡ 33 }
    ensures { labels.new ≡ tabulate (λ p. p) 33 }
{
    for p in 0..33 {
        labels[p as usize] = p;
    }
}

// The labels of a table's predicates.
pub fn label(table: &[u8], labels: &mut [u8])
    requires lawful { Lawful table.now }
    requires labels_len { length labels.old ≡ 33 }
    ensures { labels.new ≡ labels_in table.now }
{
    number(labels);
    for k in 0..table[2] {
        merge_clause(table, k, labels);
    }
}
