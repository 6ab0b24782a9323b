//! The compile of a module.

ghost use Rattle.std.specs.Prelude.{◌≡◌, ◌≤◌, Some, IfOk, IsOkAnd, IfSome, length, option_map};
ghost use Rattle.elm_canon.specs.Names.{Name};
ghost use Rattle.elm_canon.specs.View.{module_view};
ghost use Rattle.canon_env.specs.Shown.{shown_view};
ghost use Rattle.infer.specs.Modules.{CanInfer};
ghost use Rattle.infer.specs.Types.{schemes_of};
ghost use Rattle.infer.specs.Modules.{SchemesWritten};
ghost use Rattle.module_made.specs.Around.{home_of};
ghost use Rattle.elm_type.specs.View.{scheme_view};
ghost use Rattle.interface.specs.View.{interface_view};
ghost use Rattle.link.specs.Cores.{cores_of, without_cores};
ghost use Rattle.link.specs.Made as linked;
ghost use Rattle.link.specs.FragmentsView.{fragment_view};
ghost use Rattle.module_offers.specs.Offers as spec;
ghost use Rattle.type_items.specs.Inferred.{Inferred as IsInferred};
ghost use Rattle.module_offers.specs.Offers.{known_by};
ghost use Rattle.module_made.specs.Made.{Made as IsMade, Good, Bad, root};
ghost use Rattle.infer_proper.specs.Sound.{SoundInterface};
ghost use Rattle.module_compile.specs.ModulePhasesView.{around_view};
ghost use Rattle.module_compile.specs.View.{made_view, IsAtHome};
ghost use Rattle.module_compile.specs.Typing.{AllSound, value_of, AfterNames};

use crate::faults::{faults_of, too_large, type_faults};
use crate::laws::sound_law;
use crate::made::Made;
use crate::outcomes::{in_box, shared};
use crate::phases::{Outcome, named};
use crate::told::Inferred;
use crate::typing::{Typed, types_of};
use crate::{Imports, Offered};
use canon_env::shown::Shown;
use canon_module::module::Resolved;
use elm_base::fault::Fault;
use elm_canon::tree::Module;
use elm_type::scheme::Scheme;
use infer_proper::module_ready_laws::{offer_law, ready_law};
use interface::Interface;
use link::fragment::Fragment;
use link::making::fragment;
use link::split::split;
use module_offers::interfaces::{main_type, module_interface};
use pattern_check::walk::pattern_faults;
use std::alloc::{AllocError, Global};
use std::sync::Arc;

/// What a module with faults compiles to, if they are made.
fn bad(made: Result<Vec<Fault>, AllocError>) -> Result<Made, AllocError>
    ensures made { IfOk result (λ m. IsOkAnd made (λ faults. made_view m ≡ Bad faults.items)) }
    ensures home { (home : Name) → IfOk result (IsAtHome home) }
{
    match made {
        Ok(faults) => Ok(Made::Bad(faults)),
        Err(e) => Err(e),
    }
}

/// What a module compiles to that offers this, if its part of a link is made.
fn good_with(
    offered: Arc<Offered, Global>,
    made: Result<Fragment, AllocError>,
) -> Result<Made, AllocError>
    ensures made { IfOk result (λ m. IsOkAnd made (λ fragment. made_view m
        ≡ Good (interface_view offered.value.interface) (fragment_view fragment))) }
    ensures home { IfOk result (IsAtHome offered.value.home) }
{
    match made {
        Ok(fragment) => Ok(Made::Good(offered, fragment)),
        Err(e) => Err(e),
    }
}

/// What the module of the imports offers by its interface `interface`.
fn offered(
    alloc: Global,
    imports: &Imports,
    interface: Interface,
) -> Result<Arc<Offered, Global>, AllocError>
    requires { SoundInterface (home_of (around_view imports.now)) (interface_view interface) }
    ensures home { IfOk result (λ o. o.value.home ≡ home_of (around_view imports.now)) }
    ensures interface { IfOk result (λ o. interface_view o.value.interface ≡ interface_view interface) }
{
    match imports.home().clone() {
        Ok(home) => shared(alloc, Offered { home, interface }),
        Err(e) => Err(e),
    }
}

/// What the module of the imports offers that shows this, with the types of its definitions.
fn offered_by(
    alloc: Global,
    imports: &Imports,
    shown: Shown,
    module: &Module,
    told: &Inferred,
) -> Result<Arc<Offered, Global>, AllocError>
    requires sound { AllSound (around_view imports.now) (module_view module.now) (shown_view shown) }
    requires written { SchemesWritten (schemes_of told.now.types) }
    ensures home { IfOk result (λ o. o.value.home ≡ home_of (around_view imports.now)) }
    ensures interface { IfOk result (λ o. interface_view o.value.interface
        ≡ spec.module_interface (shown_view shown) (module_view module.now) (schemes_of told.now.types)) }
{
    match module_interface(alloc, shown, module, told) {
        Ok(interface) => offered(alloc, imports, interface),
        Err(e) => Err(e),
    }
}

/// What a link needs to know of a module, with the type of its `main`, if it has one.
fn fragment_of(
    alloc: Global,
    module: Box<Module>,
    main: Option<&Scheme>,
) -> Result<Fragment, AllocError>
    ensures { IfOk result (λ f. fragment_view f ≡ linked.fragment_of (cores_of (module_view module.value))
        (without_cores (module_view module.value)) (option_map (λ s. scheme_view s.now) main.entry)) }
{
    match split(alloc, Box::into_inner(module)) {
        Ok(parts) => fragment(alloc, &parts.core_names, &parts.rest, main),
        Err(e) => Err(e),
    }
}

/// What a module without faults that shows this compiles to, with the types of its definitions.
fn good_module(
    alloc: Global,
    imports: &Imports,
    module: Box<Module>,
    shown: Shown,
    told: &Inferred,
) -> Result<Made, AllocError>
    requires sound { AllSound (around_view imports.now) (module_view module.value) (shown_view shown) }
    requires written { SchemesWritten (schemes_of told.now.types) }
    ensures made { IfOk result (λ m. made_view m
        ≡ value_of (module_view module.value) (shown_view shown) (schemes_of told.now.types)) }
    ensures home { IfOk result (IsAtHome (home_of (around_view imports.now))) }
{
    let offered = offered_by(alloc, imports, shown, &module, told)?;
    let main = main_type(alloc, &module, told)?;
    good_with(offered, fragment_of(alloc, module, main.as_ref()))
}

/// What a module without faults compiles to, with the types of its definitions.
fn good(
    alloc: Global,
    imports: &Imports,
    resolved: Box<Resolved>,
    told: &Inferred,
) -> Result<Made, AllocError>
    requires sound { AllSound (around_view imports.now) (module_view resolved.value.module)
        (shown_view resolved.value.shown) }
    requires written { SchemesWritten (schemes_of told.now.types) }
    ensures made { IfOk result (λ m. made_view m ≡ value_of (module_view resolved.value.module)
        (shown_view resolved.value.shown) (schemes_of told.now.types)) }
    ensures home { IfOk result (IsAtHome (home_of (around_view imports.now))) }
{
    let Resolved {
        module,
        shown,
        faults: _,
    } = Box::into_inner(resolved);
    match in_box(alloc, module) {
        Ok(module) => good_module(alloc, imports, module, shown, told),
        Err(e) => Err(e),
    }
}

/// What a module compiles to, with the types of its definitions: the faults of its patterns, if it has any.
fn covered(
    alloc: Global,
    imports: &Imports,
    path: &str,
    resolved: Box<Resolved>,
    told: &Inferred,
) -> Result<Made, AllocError>
    requires typed { IsInferred (module_view resolved.value.module) (known_by (around_view imports.now).interfaces) root
        (schemes_of told.now.types) }
    requires sound { AllSound (around_view imports.now) (module_view resolved.value.module)
        (shown_view resolved.value.shown) }
    requires written { SchemesWritten (schemes_of told.now.types) }
    ensures made { IfOk result (λ m. AfterNames (around_view imports.now) path.now (module_view resolved.value.module)
        (shown_view resolved.value.shown) (made_view m)) }
    ensures home { IfOk result (IsAtHome (home_of (around_view imports.now))) }
{
    let found = pattern_faults(alloc, &resolved.module)?;
    if found.len() != 0 {
        return bad(faults_of(alloc, path, &found));
    }
    good(alloc, imports, resolved, told)
}

/// What a module without faults in its names compiles to.
fn compiled(
    alloc: Global,
    imports: &Imports,
    path: &str,
    resolved: Box<Resolved>,
) -> Result<Made, AllocError>
    requires ready { CanInfer (module_view resolved.value.module) }
    requires sound { AllSound (around_view imports.now) (module_view resolved.value.module)
        (shown_view resolved.value.shown) }
    ensures made { IfOk result (λ m. AfterNames (around_view imports.now) path.now (module_view resolved.value.module)
        (shown_view resolved.value.shown) (made_view m)) }
    ensures home { IfOk result (IsAtHome (home_of (around_view imports.now))) }
{
    match types_of(alloc, imports, &resolved.module)? {
        Typed::Types(told) => { covered(alloc, imports, path, resolved, &told) }
        Typed::Fault(said) => bad(type_faults(alloc, path, said.code, said.position, &said.text)),
    }
}

/// What the module of a text compiles to.
fn compile_text(
    alloc: Global,
    path: &str,
    text: &[u8],
    imports: &Imports,
) -> Result<Made, AllocError>
    requires { length text.now ≤ 4194304 }
    ensures made { IfOk result (λ m. IsMade (around_view imports.now) path.now (Some text.now) (made_view m)) }
    ensures home { IfOk result (IsAtHome (home_of (around_view imports.now))) }
{
    sound_law();
    ready_law();
    offer_law();
    match named(alloc, imports, path, text)? {
        Outcome::Named(resolved) => { compiled(alloc, imports, path, resolved) }
        Outcome::Bad(faults) => Ok(Made::Bad(faults)),
    }
}

/// What the module of the text `text` compiles to, in its phases. None: the text is too long. `imports` is what the
/// module is compiled in, and `path` is the path of its file, with which its faults are reported. The error means that
/// memory ran out.
pub fn compile(
    alloc: Global,
    path: &str,
    text: Option<&[u8]>,
    imports: &Imports,
) -> Result<Made, AllocError>
    requires { IfSome text (λ t. length t.now ≤ 4194304) }
    ensures made { IfOk result (λ m. IsMade (around_view imports.now) path.now (option_map (λ t. t.now) text.entry)
        (made_view m)) }
    ensures home { IfOk result (IsAtHome (home_of (around_view imports.now))) }
{
    match text {
        Some(text) => compile_text(alloc, path, text, imports),
        None => bad(too_large(alloc, path)),
    }
}
