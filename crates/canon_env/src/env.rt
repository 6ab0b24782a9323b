//! What the names of a module mean.

ghost use Rattle.std.specs.Prelude.{◌≡◌, [], map, IfOk, OnOk};
ghost use Rattle.canon_env.specs.Found.{find, look, found_by};
ghost use Rattle.canon_env.specs.Space.{found_view};
ghost use Rattle.canon_env.specs.Shown.{shown_view, type_meaning_view, maker_meaning_view};
ghost use Rattle.canon_env.specs.Imports.{Exposing, Everything, exposing_view};
ghost use Rattle.canon_env.specs.Filter.{Filters};
ghost use Rattle.canon_env.specs.Env.{IsEnvOf, value_view, Rows, no_rows, join, shown_rows, import_rows, imported_rows};
ghost use Rattle.canon_env.specs.Env.{own_rows, known_view, with_type};

use crate::filter::Filter;
use crate::found::{Entry, Named};
use crate::import::Import;
use crate::listing;
use crate::shown::{MakerMeaning, Shown, TypeMeaning};
use crate::space::{Space, look};
use elm_base::names::Name;
use elm_base::units::Units;
use std::alloc::{AllocError, Global};

/// An import beside what its module shows.
#[derive(Clone, Copy)]
pub struct Known<'a> {
    pub import: &'a Import,
    pub shown: &'a Shown,
}

/// What names mean: values, types and constructors.
#[derive(Drop)]
pub struct Env {
    values: Space<()>,
    types: Space<TypeMeaning>,
    makers: Space<MakerMeaning>,
}

/// What the names of a module mean: its own names hide those of its imports.
#[derive(Drop)]
pub struct World {
    pub own: Env,
    pub imported: Env,
}

impl World {
    /// What the value `name` means with the qualifier `qualifier`, which is empty where there is none. None: nothing
    /// has that name.
    pub fn value(&self, qualifier: &Name, name: &Name) -> Option<&Entry<()>>
        ensures { (own imported : Rows) → IsEnvOf self.now.own own → IsEnvOf self.now.imported imported →
            found_by value_view (found_view result) ≡ look own.values imported.values qualifier.now name.now }
    {
        look(&self.own.values, &self.imported.values, qualifier, name)
    }

    /// The same of a type.
    pub fn type_named(&self, qualifier: &Name, name: &Name) -> Option<&Entry<TypeMeaning>>
        ensures { (own imported : Rows) → IsEnvOf self.now.own own → IsEnvOf self.now.imported imported →
            found_by type_meaning_view (found_view result)
            ≡ look own.types imported.types qualifier.now name.now }
    {
        look(&self.own.types, &self.imported.types, qualifier, name)
    }

    /// The same of a constructor.
    pub fn maker(&self, qualifier: &Name, name: &Name) -> Option<&Entry<MakerMeaning>>
        ensures { (own imported : Rows) → IsEnvOf self.now.own own → IsEnvOf self.now.imported imported →
            found_by maker_meaning_view (found_view result)
            ≡ look own.makers imported.makers qualifier.now name.now }
    {
        look(&self.own.makers, &self.imported.makers, qualifier, name)
    }
}

impl Env {
    /// An environment without names.
    fn new(alloc: Global) -> Env
        ensures { IsEnvOf result no_rows }
    {
        Env {
            values: Space::new(alloc),
            types: Space::new(alloc),
            makers: Space::new(alloc),
        }
    }

    /// What the value `name` means with the qualifier `qualifier`, which is empty where there is none. None: nothing
    /// has that name.
    pub fn value(&self, qualifier: &Name, name: &Name) -> Option<&Entry<()>>
        ensures { (rows : Rows) → IsEnvOf self.now rows → found_by value_view (found_view result)
            ≡ find rows.values qualifier.now name.now }
    {
        self.values.find(qualifier, name)
    }

    /// The same of a type.
    pub fn type_named(&self, qualifier: &Name, name: &Name) -> Option<&Entry<TypeMeaning>>
        ensures { (rows : Rows) → IsEnvOf self.now rows → found_by type_meaning_view (found_view result)
            ≡ find rows.types qualifier.now name.now }
    {
        self.types.find(qualifier, name)
    }

    /// The same of a constructor.
    pub fn maker(&self, qualifier: &Name, name: &Name) -> Option<&Entry<MakerMeaning>>
        ensures { (rows : Rows) → IsEnvOf self.now rows → found_by maker_meaning_view (found_view result)
            ≡ find rows.makers qualifier.now name.now }
    {
        self.makers.find(qualifier, name)
    }

    /// Adds what passes of the names that the module `home` shows, with the qualifier.
    fn add(
        &mut self,
        alloc: Global,
        qualifier: &Name,
        home: &Name,
        filter: &Filter,
        shown: &Shown,
    ) -> Result<(), AllocError>
        ensures { OnOk result ((e : Exposing) (rows : Rows) → Filters filter.now e → IsEnvOf self.old rows
            → IsEnvOf self.new (join rows (shown_rows qualifier.now home.now e (shown_view shown.now)))) }
    {
        self.values.add_all(
            alloc,
            qualifier,
            home,
            listing::values(alloc, filter, shown)?,
        )?;
        self.types.add_all(
            alloc,
            qualifier,
            home,
            listing::types(alloc, filter, shown)?,
        )?;
        self.makers.add_all(
            alloc,
            qualifier,
            home,
            listing::makers(alloc, filter, shown)?,
        )?;
        Ok(())
    }

    /// Adds the type `name` of the module `home`, which means `meaning`, without a qualifier. Where something of that
    /// module has the name already, it keeps its meaning. The error means that memory ran out; then names are missing.
    pub fn add_type(
        &mut self,
        alloc: Global,
        home: &Name,
        name: Name,
        meaning: TypeMeaning,
    ) -> Result<(), AllocError>
        ensures { OnOk result ((rows : Rows) → IsEnvOf self.old rows
            → IsEnvOf self.new (with_type rows home.now name (type_meaning_view meaning))) }
    {
        let mut named = Vec::new(alloc);
        named.push(Named { name, meaning })?;
        let none = no_name(alloc)?;
        self.types.add_all(alloc, &none, home, named)
    }

    /// Adds what an import exposes, without a qualifier. `none` is the qualifier of no module.
    fn add_exposed(
        &mut self,
        alloc: Global,
        none: &Name,
        known: &Known<'_>,
    ) -> Result<(), AllocError>
        requires { none.now ≡ [] }
        ensures { OnOk result ((rows : Rows) → IsEnvOf self.old rows →
            IsEnvOf self.new (join rows (shown_rows [] known.now.import.now.home
            (exposing_view known.now.import.now.exposes) (shown_view known.now.shown.now)))) }
    {
        let import = known.import;
        let filter = Filter::of(alloc, &import.exposes)?;
        self.add(alloc, none, &import.home, &filter, known.shown)
    }

    /// Adds the names of an import. `all` lets everything through, and `none` is the qualifier of no module.
    fn add_import(
        &mut self,
        alloc: Global,
        all: &Filter,
        none: &Name,
        known: &Known<'_>,
    ) -> Result<(), AllocError>
        requires all { Filters all.now Everything }
        requires none { none.now ≡ [] }
        ensures { OnOk result ((rows : Rows) → IsEnvOf self.old rows →
            IsEnvOf self.new (join rows (import_rows (known_view known.now)))) }
    {
        let import = known.import;
        self.add(alloc, &import.qualifier, &import.home, all, known.shown)?;
        self.add_exposed(alloc, none, known)
    }

    /// Adds the names of imports.
    fn add_imports(
        &mut self,
        alloc: Global,
        all: &Filter,
        none: &Name,
        imports: &[Known<'_>],
    ) -> Result<(), AllocError>
        requires all { Filters all.now Everything }
        requires none { none.now ≡ [] }
        ensures { OnOk result (IsEnvOf self.old no_rows →
            IsEnvOf self.new (imported_rows (map known_view imports.now))) }
    {
        for known in imports {
            self.add_import(alloc, all, none, known)?;
        }
        Ok(())
    }

    /// Adds the names of imports to an environment without names.
    fn fill(&mut self, alloc: Global, imports: &[Known<'_>]) -> Result<(), AllocError>
        ensures { OnOk result (IsEnvOf self.old no_rows →
            IsEnvOf self.new (imported_rows (map known_view imports.now))) }
    {
        let none = no_name(alloc)?;
        self.add_imports(alloc, &Filter::open(alloc), &none, imports)
    }

    /// Adds the names that the module `home` declares, which is all of `shown`.
    fn add_own(&mut self, alloc: Global, home: &Name, shown: &Shown) -> Result<(), AllocError>
        ensures { OnOk result ((rows : Rows) → IsEnvOf self.old rows →
            IsEnvOf self.new (join rows (own_rows home.now (shown_view shown.now)))) }
    {
        let none = no_name(alloc)?;
        self.add(alloc, &none, home, &Filter::open(alloc), shown)
    }

    /// What names mean by imports, each beside what its module shows. The error means that memory ran out.
    pub fn of(alloc: Global, imports: &[Known<'_>]) -> Result<Env, AllocError>
        ensures { IfOk result (λ env. IsEnvOf env (imported_rows (map known_view imports.now))) }
    {
        let mut env = Env::new(alloc);
        env.fill(alloc, imports)?;
        Ok(env)
    }

    /// What the names mean that the module `home` declares, which is all of `shown`. The error means that memory ran
    /// out.
    pub fn own(alloc: Global, home: &Name, shown: &Shown) -> Result<Env, AllocError>
        ensures { IfOk result (λ env. IsEnvOf env (own_rows home.now (shown_view shown.now))) }
    {
        let mut env = Env::new(alloc);
        env.add_own(alloc, home, shown)?;
        Ok(env)
    }
}

/// The name without units: the qualifier of a name that has none.
pub fn no_name(alloc: Global) -> Result<Name, AllocError>
    ensures { IfOk result (λ name. name ≡ []) }
{
    Name::new(alloc, Units::from_vec(Vec::new(alloc)))
}
